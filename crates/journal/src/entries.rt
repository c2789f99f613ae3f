// A journal.
ghost use Rattle.std.specs.Prelude.{◌≡◌, ◌≤◌, vec_len, vec_capacity};
ghost use Rattle.std.specs.VecDeque.{deque_len};

use crate::calls::Call;
use crate::replies::Reply;
use std::collections::VecDeque;

// Calls to be carried out in their order, with room for a reply to each.
#[derive(Drop)]
pub struct Journal<L, R> {
    pub(crate) calls: VecDeque<Call<L, R>>,
    pub(crate) room: Vec<Reply<L, R>>,
    ghost blank: { vec_len room ≡ 0 },
    ghost enough: { deque_len calls ≤ vec_capacity room },
}
