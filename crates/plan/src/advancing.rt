// Granted rounds.
ghost use Rattle.std.specs.Prelude.{◌≡◌, ◌+◌, ◌-◌, ◌^◌, ◌<◌, MatchBool, ◌≢◌};
ghost use Rattle.model.specs.Calls.{Advanced};
ghost use Rattle.plan.specs.Models.{model};
ghost use Rattle.plan.specs.Advances.{AfterEveryRun};
ghost use Rattle.plan.specs.Standing.{SameNetworks};

use crate::plan::Plan;
use model::State;
use network::Network;

impl<L: Network, R: Network<Over = L::Over>> Plan<L, R> {
    // Makes rounds until a verdict falls, at most `grant`. The state, and how many were made. By a rule of the project a loop that
    // breaks with both, and not a `for` over the grant.
    pub fn advance(&mut self, grant: u64) -> (State, u64)
        ensures networks { SameNetworks self.old self.new }
        ensures advanced { Advanced (model self.old) grant result.0 result.1 (model self.new) }
        ensures foretold { AfterEveryRun L.Over.Scale.algebra (model self.old) grant result.0 result.1 (model self.new) }
    {
        let mut made = 0;
        'rounds: loop {
            if is_used(made, grant) {
                break (self.state, made);
            }
            match self.state {
                State::Open => self.round(),
                decided => break (decided, made),
            }
            made = one_more(made);
        }
    }
}

// Whether all granted rounds are made.
fn is_used(made: u64, grant: u64) -> bool
    ensures { MatchBool result (made ≡ grant) (made ≢ grant) }
{
    made == grant
}

fn one_more(made: u64) -> u64
    requires { made < 2 ^ 64 - 1 }
    ensures { result ≡ made + 1 }
{
    made + 1
}
