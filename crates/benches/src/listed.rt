// The records of a side, as the slice of those that it holds.
ghost use Rattle.std.specs.Prelude.{◌≡◌, ◌≤◌, length};
ghost use Rattle.benches.specs.Records.{records};

use crate::table::Benches;
use model::Bench;
use std::fmt;

impl Benches {
    // The records.
    pub(crate) fn as_slice(&self) -> &[Bench]
        ensures same { result.now ≡ records self.now }
        ensures few { length result.now ≤ 32 }
    {
        &self.rows[..self.count]
    }
}

// Not derived: that would print the rows past the count.
impl fmt::Debug for Benches {
    fn fmt<W: fmt::Write>(&self, f: &mut fmt::Formatter<W>) -> fmt::Result {
        f.debug_struct("Benches")
            .field("rows", &self.as_slice())
            .finish()
    }
}
