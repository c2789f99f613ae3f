// The lists of a plan file.
ghost use Rattle.std.specs.Prelude.{◌≡◌, ◌*◌, length};

use crate::heads::SoundHead;
use crate::parts::MOST;
use crate::spans::Windows;
use arrayvec::ArrayVec;

// The head, the cells of both networks, row after row, and the windows of both sides.
#[derive(Drop)]
pub(crate) struct Lists {
    pub(crate) head: SoundHead,
    pub(crate) left: ArrayVec<Option<i32>, MOST>,
    pub(crate) right: ArrayVec<Option<i32>, MOST>,
    pub(crate) lefts: Windows,
    pub(crate) rights: Windows,
    ghost left_cells: { length left.items ≡ head.stations.number * head.left.number },
    ghost right_cells: { length right.items ≡ head.stations.number * head.right.number },
}
