// The starts of one side.
ghost use Rattle.std.specs.Prelude.{◌≡◌, ◌-◌, ◌≤◌, length, drop, replicate, pos};

// At most 32 starts: the first `count` of 32 places. The other places are 0, so that two lists of the same starts are the same value.
#[derive(Clone, Copy)]
pub struct StartList {
    pub(crate) places: [i32; 32],
    pub(crate) count: usize,
    ghost few: { count ≤ 32 },
    ghost full: { length places ≡ 32 },
    ghost spare: { drop count places ≡ replicate (32 - count) (pos 0) },
}
