// The map of a row.
ghost use Rattle.std.specs.Prelude.{◌≡◌, ◌/◌, ◌^◌, ◌<◌, not, IfOk, ◌==◌};
ghost use Rattle.layout.specs.Reading.{Reads};
ghost use Rattle.planfile.specs.Rows.{map_of};

use layout::{ByteFault, Cursor};
use network::Refusal;

// The map of a row of `benches` benches: the bit worth 2^j stands for bench j.
pub(crate) fn read_map(cursor: &mut Cursor, benches: usize) -> Result<u32, ByteFault>
    ensures reads { Reads (map_of benches) cursor.old cursor.new (λ m. m) result }
    ensures small { IfOk result (λ m. m < 2 ^ benches) }
{
    let byte = cursor.at;
    let map = cursor.word()?;
    if has_more(map, benches) {
        return Err(ByteFault {
            refusal: Refusal::Bit,
            byte,
        });
    }
    Ok(map)
}

// Whether a bit stands in the map for a bench that is not there.
fn has_more(map: u32, benches: usize) -> bool
    ensures { result ≡ not (map / 2 ^ benches == 0) }
{
    benches < 32 && map >> benches != 0
}
