// Networks over which no plan was founded.
use benches::Fault;

// The fault, and the networks that were offered.
#[derive(Drop)]
pub struct Unfounded<L, R> {
    pub fault: Fault,
    pub left: L,
    pub right: R,
}
