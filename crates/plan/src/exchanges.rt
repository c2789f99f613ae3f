// Another network in a plan, and starts taken as ceilings.
ghost use Rattle.network.specs.Checks.{Checked};
ghost use Rattle.model.specs.Sheets.{the_left, the_right};
ghost use Rattle.model.specs.Calls.{same_size_checks, Exchanged, Adopted};
ghost use Rattle.benches.specs.Answers.{answer};
ghost use Rattle.plan.specs.Models.{model};
ghost use Rattle.plan.specs.Exchanges.{exchange_answer, Back};
ghost use Rattle.plan.specs.Standing.{Stand, SameNetworks, standing};

use crate::exchanged::Unexchanged;
use crate::plan::Plan;
use model::State;
use network::{Network, Refusal};

impl<L: Network, R: Network<Over = L::Over>> Plan<L, R> {
    // Puts another network in the place of the left one, which comes back, and makes a fresh start: 12, with the offered one.
    pub fn exchange_left(&mut self, network: L) -> Result<L, Unexchanged<L>>
        ensures call { Exchanged (model self.old) the_left (L.Network.meaning network) (exchange_answer result) (model self.new) }
        ensures back { Back self.old.left.network network result }
        ensures networks { Stand (standing self.old.left.network network result) self.old.right.network self.new }
    {
        if let Err(refusal) = check_same_size(&self.left.network, &network) {
            return Err(Unexchanged { refusal, network });
        }
        let old = std::mem::replace(&mut self.left.network, network);
        self.restart();
        Ok(old)
    }

    // The same for the right network, which may be of another type: so each side has a call of its own.
    pub fn exchange_right(&mut self, network: R) -> Result<R, Unexchanged<R>>
        ensures call { Exchanged (model self.old) the_right (R.Network.meaning network) (exchange_answer result) (model self.new) }
        ensures back { Back self.old.right.network network result }
        ensures networks { Stand self.old.left.network (standing self.old.right.network network result) self.new }
    {
        if let Err(refusal) = check_same_size(&self.right.network, &network) {
            return Err(Unexchanged { refusal, network });
        }
        let old = std::mem::replace(&mut self.right.network, network);
        self.restart();
        Ok(old)
    }

    // Sets every ceiling to its start: 14.
    pub fn adopt(&mut self) -> Result<(), Refusal>
        ensures networks { SameNetworks self.old self.new }
        ensures call { Adopted (model self.old) (answer result) (model self.new) }
    {
        if self.state != State::InStep {
            return Err(Refusal::NotInStep);
        }
        self.left.benches.adopt();
        self.right.benches.adopt();
        Ok(())
    }
}

// Whether the offered network has as many stations and benches as the one that stands there: 12. It is only lent, since a network
// can be large, and is moved once, into the plan or back.
fn check_same_size<M: Network, N: Network>(stands: &M, offered: &N) -> Result<(), Refusal>
    ensures { Checked (same_size_checks (M.Network.meaning stands.now) (N.Network.meaning offered.now)) (answer result) }
{
    if offered.stations() != stands.stations() || offered.benches() != stands.benches() {
        return Err(Refusal::Lengths);
    }
    Ok(())
}
