// One round.
ghost use Rattle.std.specs.Prelude.{◌≡◌, ◌&&◌, ◌||◌};
ghost use Rattle.model.specs.Plans.{round, verdict};
ghost use Rattle.benches.specs.Halves.{hall, CutBy};
ghost use Rattle.plan.specs.Models.{model};
ghost use Rattle.plan.specs.Standing.{SameNetworks};

use crate::plan::Plan;
use model::State;
use network::Network;

impl<L: Network, R: Network<Over = L::Over>> Plan<L, R> {
    // Cuts the right starts by the left arrivals, then the left starts by the new right arrivals, and tells the verdict.
    pub(crate) fn round(&mut self)
        ensures networks { SameNetworks self.old self.new }
        ensures plan { model self.new ≡ round (model self.old) }
    {
        let (lefts_rest, rights_rest) = self.cut_both();
        let left_fell = self.left.benches.is_fallen();
        let right_fell = self.right.benches.is_fallen();
        self.state = verdict_of(left_fell, right_fell, lefts_rest, rights_rest);
    }

    // Both halves of a round. Says of each side whether no start of it changed.
    fn cut_both(&mut self) -> (bool, bool)
        ensures networks { SameNetworks self.old self.new }
        ensures right { CutBy (hall self.old.left) (hall self.old.right) (hall self.new.right) result.1 }
        ensures left { CutBy (hall self.new.right) (hall self.old.left) (hall self.new.left) result.0 }
    {
        let rights_rest = self.right.cut_by(&self.left);
        let lefts_rest = self.left.cut_by(&self.right);
        (lefts_rest, rights_rest)
    }
}

// The verdict of a round. Four flags, since here the sides are joined.
fn verdict_of(left_fell: bool, right_fell: bool, lefts_rest: bool, rights_rest: bool) -> State
    ensures { result ≡ verdict (left_fell || right_fell) (lefts_rest && rights_rest) }
{
    if left_fell || right_fell {
        State::Impossible
    } else if lefts_rest && rights_rest {
        State::InStep
    } else {
        State::Open
    }
}
