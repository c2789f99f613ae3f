// One bench of a plan, and a fresh start.
ghost use Rattle.std.specs.Prelude.{◌≡◌};
ghost use Rattle.model.specs.Sheets.{own_sheet, fresh};
ghost use Rattle.model.specs.Calls.{change_at};
ghost use Rattle.plan.specs.Models.{model};
ghost use Rattle.plan.specs.Readings.{BenchAt};
ghost use Rattle.plan.specs.Standing.{SameNetworks};

use crate::plan::Plan;
use model::{Bench, Place, State};
use network::{Network, Refusal};

impl<L: Network, R: Network<Over = L::Over>> Plan<L, R> {
    // The record of a bench, or 10. A side is a number: the calls take it so, and refuse one that is no side.
    pub(crate) fn bench(&self, place: Place) -> Result<Bench, Refusal>
        ensures { BenchAt (model self.now) place.side place.bench result }
    {
        let b = match place.side {
            0 => self.left.benches.get(place.bench),
            1 => self.right.benches.get(place.bench),
            _ => None,
        };
        b.ok_or(Refusal::Place)
    }

    // Puts another record in the place of a bench's, whose side is a number as above.
    pub(crate) fn put(&mut self, place: Place, row: Bench)
        ensures networks { SameNetworks self.old self.new }
        ensures plan { model self.new ≡ change_at (model self.old) place.side place.bench (λ _. row) }
    {
        match place.side {
            0 => self.left.benches.put(place.bench, row),
            1 => self.right.benches.put(place.bench, row),
            _ => (),
        }
    }

    // Every start at its ceiling, and the plan open.
    pub(crate) fn restart(&mut self)
        ensures networks { SameNetworks self.old self.new }
        ensures plan { model self.new ≡ fresh (own_sheet (model self.old)) }
    {
        self.left.benches.renew();
        self.right.benches.renew();
        self.state = State::Open;
    }
}
