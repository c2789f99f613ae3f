// Readings, which change nothing.
ghost use Rattle.std.specs.Prelude.{◌≡◌};
ghost use Rattle.model.specs.Plans.{slack};
ghost use Rattle.plan.specs.Models.{model};
ghost use Rattle.plan.specs.Readings.{Windowed, Started};

use crate::plan::Plan;
use model::{Place, State, Window};
use network::{Network, Refusal};

impl<L: Network, R: Network<Over = L::Over>> Plan<L, R> {
    pub fn state(&self) -> State
        ensures { result ≡ (model self.now).state }
    {
        self.state
    }

    // The sum over all benches of start minus floor, 0 for an impossible plan.
    pub fn slack(&self) -> i64
        ensures { result ≡ slack (model self.now) }
    {
        match self.state {
            State::Impossible => 0,
            State::Open | State::InStep => self.left.benches.spare() + self.right.benches.spare(),
        }
    }

    // The window of a bench: 10.
    pub fn window(&self, place: Place) -> Result<Window, Refusal>
        ensures { Windowed (model self.now) place.side place.bench result }
    {
        self.bench(place).map(Window::from)
    }

    // Writes the starts of a plan in step: 12, 14.
    pub fn starts(&self, lefts: &mut [i32], rights: &mut [i32]) -> Result<(), Refusal>
        ensures { Started (model self.now) lefts.old rights.old lefts.new rights.new result }
    {
        if lefts.len() != self.left.benches.count() || rights.len() != self.right.benches.count() {
            return Err(Refusal::Lengths);
        }
        if self.state != State::InStep {
            return Err(Refusal::NotInStep);
        }
        self.left.benches.starts(lefts)?;
        self.right.benches.starts(rights)
    }
}
