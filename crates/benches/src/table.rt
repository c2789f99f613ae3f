// A side's bench records.
ghost use Rattle.std.specs.Prelude.{◌≡◌, ◌-◌, ◌≤◌, length, drop, replicate};
ghost use Rattle.model.specs.Calls.{no_bench};

use model::Bench;

// At most 32 records: the first `count` of the rows. The other rows are zeros, so that two lists of the same records are the same value.
#[derive(Clone, Copy)]
pub struct Benches {
    pub(crate) rows: [Bench; 32],
    pub(crate) count: usize,
    ghost few: { count ≤ 32 },
    ghost full: { length rows ≡ 32 },
    ghost spare: { drop count rows ≡ replicate (32 - count) no_bench },
}
