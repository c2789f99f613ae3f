// Making room for the replies.
ghost use Rattle.std.specs.Prelude.{◌≡◌, MatchResult};

use crate::calls::Call;
use crate::entries::Journal;
use std::alloc::Global;
use std::collections::VecDeque;

impl<L: Drop, R: Drop> Journal<L, R> {
    // A journal of these calls, or the calls back where there is no memory.
    pub fn new(
        heap: Global,
        calls: VecDeque<Call<L, R>>,
    ) -> Result<Journal<L, R>, VecDeque<Call<L, R>>>
        ensures { MatchResult result (λ j. j.calls.items ≡ calls.items) (λ c. c.items ≡ calls.items) }
    {
        let Ok(room) = Vec::with_capacity(heap, calls.len()) else {
            return Err(calls);
        };
        Ok(Journal { calls, room })
    }
}
