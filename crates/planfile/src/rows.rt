// A row: a map, then a coefficient for each bit that stands, lowest bench first.
ghost use Rattle.std.specs.Prelude.{◌≡◌, ◌^◌, ◌<◌, [], length, IfOk};
ghost use Rattle.std.specs.Int.Count.{count_trailing_zeros};
ghost use Rattle.layout.specs.Reading.{Reads};
ghost use Rattle.planfile.specs.Rows.{cells, row_of};

use crate::maps::read_map;
use crate::sizes::Count;
use arrayvec::ArrayVec;
use layout::{Bounds, ByteFault, Cursor, read_number};
use network::Refusal;

// The cells of a row.
pub(crate) fn read_row(
    cursor: &mut Cursor,
    benches: Count,
    bounds: Bounds,
) -> Result<ArrayVec<Option<i32>, 32>, ByteFault>
    ensures reads { Reads (row_of bounds benches.number) cursor.old cursor.new (λ row. row.items) result }
    ensures len { IfOk result (λ row. length row.items ≡ benches.number) }
{
    let map = read_map(cursor, benches.number)?;
    read_cells(cursor, map, benches, bounds)
}

// The cells whose bit stands in the map.
fn read_cells(
    cursor: &mut Cursor,
    map: u32,
    benches: Count,
    bounds: Bounds,
) -> Result<ArrayVec<Option<i32>, 32>, ByteFault>
    requires { map < 2 ^ benches.number }
    ensures reads { Reads (cells bounds benches.number map []) cursor.old cursor.new (λ row. row.items) result }
    ensures len { IfOk result (λ row. length row.items ≡ benches.number) }
{
    let mut row = ArrayVec::from([None; 32]);
    row.truncate(benches.number);
    let mut rest = map;
    let mut bench = 0usize;
    // not a `for` over the benches: by a rule of the project the next bench is that of the next bit
    while rest != 0 {
        let gap = next_bit(rest);
        bench += gap as usize;
        rest >>= gap;
        let a = read_number(cursor, bounds, Refusal::Coefficient)?;
        row[bench] = Some(a);
        bench += 1;
        rest >>= 1;
    }
    Ok(row)
}

// How many bits come before the first that stands.
fn next_bit(rest: u32) -> u32
    ensures { result ≡ count_trailing_zeros 32 rest }
{
    rest.trailing_zeros()
}
