// A list of windows.
ghost use Rattle.std.specs.Prelude.{◌≡◌, ◌-◌, ◌≤◌, length, drop, replicate};
ghost use Rattle.planfile.specs.Spares.{no_window};

use model::Window;

// The windows of a side, bench 0 first: the first `count` of 32 places. The other places are zeros, so that two lists of the same
// windows are the same value.
#[derive(Clone, Copy)]
pub struct Windows {
    pub(crate) list: [Window; 32],
    pub(crate) count: usize,
    ghost few: { count ≤ 32 },
    ghost full: { length list ≡ 32 },
    ghost spare: { drop count list ≡ replicate (32 - count) no_window },
}
