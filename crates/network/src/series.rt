// Two networks, one after the other.
use crate::refusal::Refusal;

// The arrivals of the first are the starts of the second.
#[derive(Drop)]
pub struct Series<A, B> {
    pub(crate) first: A,
    pub(crate) second: B,
}

// Two networks that were not put in series, and why.
#[derive(Drop)]
pub struct Unjoined<A, B> {
    pub refusal: Refusal,
    pub first: A,
    pub second: B,
}
