// Where a bench stands.

// A bench of a plan: side 0 is left and 1 is right, benches count from 0. A side is a number, so that a call can name one that is
// not there and is refused.
#[derive(Clone, Copy, Debug, PartialEq, Eq)]
pub struct Place {
    pub side: usize,
    pub bench: usize,
}
