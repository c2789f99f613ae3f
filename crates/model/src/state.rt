// What is known of a plan.
ghost use Rattle.std.specs.Prelude.{Some};
ghost use Rattle.model.specs.States.{words};

use std::fmt;

#[derive(Clone, Copy, Debug, PartialEq, Eq)]
pub enum State {
    // More rounds are needed.
    Open,
    // The starts are the greatest list that fits.
    InStep,
    // No list fits.
    Impossible,
}

impl fmt::Display for State {
    ghost output = { λ s. Some (words s) };

    fn fmt<W: fmt::Write>(&self, f: &mut fmt::Formatter<W>) -> fmt::Result {
        f.write_str(match self {
            State::Open => "open",
            State::InStep => "in step",
            State::Impossible => "impossible",
        })
    }
}
