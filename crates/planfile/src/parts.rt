// The parts of a plan file that have a line for each station or bench.
ghost use Rattle.std.specs.Prelude.{◌≡◌, ◌*◌, [], length, IfOk};
ghost use Rattle.layout.specs.Reading.{Reads};
ghost use Rattle.planfile.specs.Parts.{rows_of, windows_of};
ghost use Rattle.planfile.specs.Handed.{windows_in};

use crate::rows::read_row;
use crate::sizes::Count;
use crate::spans::Windows;
use crate::windows::read_window;
use arrayvec::ArrayVec;
use layout::{Bounds, Cursor, LineFault};

// The most cells of a network: 32 stations and 32 benches.
pub(crate) const MOST: usize = 1024;

// The cells of a network, row after row.
pub(crate) fn read_rows(
    cursor: &mut Cursor,
    stations: Count,
    benches: Count,
    bounds: Bounds,
) -> Result<ArrayVec<Option<i32>, MOST>, LineFault>
    ensures reads { Reads (rows_of bounds benches.number stations.number 0 []) cursor.old cursor.new (λ cells. cells.items) result }
    ensures len { IfOk result (λ cells. length cells.items ≡ stations.number * benches.number) }
{
    let mut cells = ArrayVec::new();
    // the number is the line: there is no list to go over
    for i in 0..stations.number {
        let row = read_row(cursor, benches, bounds).map_err(move |f| f.on_line(i))?;
        cells.try_extend_from_slice(row.as_slice()).unwrap();
    }
    Ok(cells)
}

// The windows of a side.
pub(crate) fn read_windows(
    cursor: &mut Cursor,
    benches: Count,
    bounds: Bounds,
) -> Result<Windows, LineFault>
    ensures { Reads (windows_of bounds benches.number 0 []) cursor.old cursor.new windows_in result }
{
    let mut windows = Windows::new();
    // as above
    for i in 0..benches.number {
        let w = read_window(cursor, bounds).map_err(move |f| f.on_line(i))?;
        windows.push(w);
    }
    Ok(windows)
}
