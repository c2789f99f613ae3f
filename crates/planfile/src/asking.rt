// A row as a part of the file, before it is decoded.
ghost use Rattle.std.specs.Prelude.{◌≡◌};
ghost use Rattle.layout.specs.Reading.{Reads};
ghost use Rattle.planfile.specs.Asks.{fields, asked_row};

use crate::maps::read_map;
use layout::{ByteFault, Cursor};
use network::Refusal;

// Passes over the row of some benches that begins at the cursor. Its map.
pub(crate) fn pass_row(cursor: &mut Cursor, benches: usize) -> Result<u32, ByteFault>
    ensures { Reads (asked_row benches) cursor.old cursor.new (λ m. m) result }
{
    let map = read_map(cursor, benches)?;
    skip(cursor, map.count_ones())?;
    Ok(map)
}

// Passes over some fields of four bytes.
fn skip(cursor: &mut Cursor, count: u32) -> Result<(), ByteFault>
    ensures { Reads (fields count) cursor.old cursor.new (λ u. u) result }
{
    let whole = (cursor.bytes.len() - cursor.at) / 4;
    if whole < count as usize {
        return Err(ByteFault {
            refusal: Refusal::Ends,
            byte: cursor.at + 4 * whole,
        });
    }
    cursor.at += 4 * count as usize;
    Ok(())
}
