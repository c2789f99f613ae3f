// A journal that was not begun.
use crate::entries::Journal;
use plan::Unfounded;

// The fault of founding with the networks, and the journal.
#[derive(Drop)]
pub struct Unstarted<L, R> {
    pub unfounded: Unfounded<L, R>,
    pub journal: Journal<L, R>,
}
