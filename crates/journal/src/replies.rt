// What a call answers.
use crate::start_list::StartList;
use model::{State, Window};
use network::Refusal;
use plan::Unexchanged;

// The starts of both sides.
#[derive(Clone, Copy, Debug, PartialEq, Eq)]
pub struct Starts {
    pub lefts: StartList,
    pub rights: StartList,
}

#[derive(Drop)]
pub enum Reply<L, R> {
    // Of a window that was to change, and of an adoption.
    Changed(Result<(), Refusal>),
    // One a side, as the calls: the network that stood there, or the refusal with the one that was offered.
    ExchangedLeft(Result<L, Unexchanged<L>>),
    ExchangedRight(Result<R, Unexchanged<R>>),
    // The state after an advance, and the rounds made.
    Advanced(State, u64),
    StateIs(State),
    SlackIs(i64),
    WindowIs(Result<Window, Refusal>),
    StartsAre(Result<Starts, Refusal>),
}
