// The tables and windows of a plan file.
ghost use Rattle.std.specs.Prelude.{◌≡◌, ◌*◌, length};
ghost use Rattle.table.specs.Cells.{Holds};
ghost use Rattle.planfile.specs.Contents.{said};
ghost use Rattle.planfile.specs.Handed.{Carries};

use crate::contents::Contents;
use crate::lists::Lists;
use crate::sizes::Count;
use scale::Scale;
use table::Table;

// What the lists of a file say, as tables and windows.
pub(crate) fn contents<S: Scale>(lists: Lists) -> Contents<S>
    ensures { Carries S.Scale.algebra (said lists) result }
{
    let head = lists.head;
    Contents {
        left: table(head.stations, head.left, lists.left.as_slice()),
        right: table(head.stations, head.right, lists.right.as_slice()),
        lefts: lists.lefts,
        rights: lists.rights,
    }
}

// The table of a list of cells, row after row.
fn table<S: Scale>(stations: Count, benches: Count, cells: &[Option<i32>]) -> Table<S>
    requires { length cells.now ≡ stations.number * benches.number }
    ensures { Holds S.Scale.algebra stations.number benches.number cells.now result }
{
    Table::new(stations.number, benches.number, cells).unwrap()
}
