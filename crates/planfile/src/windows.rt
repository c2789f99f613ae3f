// The window of a bench: a map byte, then the limits whose bit stands.
ghost use Rattle.std.specs.Prelude.{◌≡◌, ℤ};
ghost use Rattle.std.specs.Option.{unwrap_or};
ghost use Rattle.layout.specs.Reading.{Reads};
ghost use Rattle.planfile.specs.Windows.{has_floor, has_ceiling, limit, in_order, window_of};

use layout::{Bounds, ByteFault, Cursor, read_number};
use model::Window;
use network::Refusal;

// A window of the file. A limit that is not written is the least or the greatest that there is.
pub(crate) fn read_window(cursor: &mut Cursor, bounds: Bounds) -> Result<Window, ByteFault>
    ensures { Reads (window_of bounds) cursor.old cursor.new (λ w. w) result }
{
    let byte = cursor.at;
    let map = cursor.byte()?;
    if map >= 4 {
        return Err(ByteFault {
            refusal: Refusal::Bit,
            byte,
        });
    }
    let floor = read_limit(cursor, floor_stands(map), bounds)?;
    let ceiling = read_limit(cursor, ceiling_stands(map), bounds)?;
    let window = Window {
        floor: floor_or_least(floor, bounds),
        ceiling: ceiling_or_greatest(ceiling, bounds),
    };
    in_order(window, byte)
}

// The limit, if it stands in the file, which a bit of the map says. Not by `then`, since what is read may fail.
fn read_limit(cursor: &mut Cursor, stands: bool, bounds: Bounds) -> Result<Option<i32>, ByteFault>
    ensures { (otherwise : ℤ) → Reads (limit bounds stands otherwise) cursor.old cursor.new (λ v. unwrap_or v otherwise) result }
{
    if !stands {
        return Ok(None);
    }
    let limit = read_number(cursor, bounds, Refusal::Window)?;
    Ok(Some(limit))
}

// The floor, the least value where none is written.
fn floor_or_least(floor: Option<i32>, bounds: Bounds) -> i32
    ensures { result ≡ unwrap_or floor bounds.least }
{
    floor.unwrap_or(bounds.least)
}

// The ceiling, the greatest value where none is written.
fn ceiling_or_greatest(ceiling: Option<i32>, bounds: Bounds) -> i32
    ensures { result ≡ unwrap_or ceiling bounds.greatest }
{
    ceiling.unwrap_or(bounds.greatest)
}

// Each bit has a function of its own, told by its own definition.
fn floor_stands(map: u8) -> bool
    ensures { result ≡ has_floor map }
{
    map % 2 == 1
}

fn ceiling_stands(map: u8) -> bool
    ensures { result ≡ has_ceiling map }
{
    map / 2 == 1
}

// The window, or 8 at the map's byte where the floor is above the ceiling.
fn in_order(w: Window, map_byte: usize) -> Result<Window, ByteFault>
    ensures { result ≡ in_order w.floor w.ceiling map_byte }
{
    if w.floor <= w.ceiling {
        Ok(w)
    } else {
        Err(ByteFault {
            refusal: Refusal::Crossed,
            byte: map_byte,
        })
    }
}
