// What a plan is, and the law over every run of calls on it.
#![tactic(auto)]

mod bench;
mod laws;
mod place;
mod state;

pub use bench::{Bench, Window};
pub use laws::{solving_again_stands, verdicts_stand};
pub use place::Place;
pub use state::State;
