// Carrying out one call.
ghost use Rattle.plan.specs.Models.{model};
ghost use Rattle.journal.specs.Calls.{call_of, reply_of, StartsRead};
ghost use Rattle.journal.specs.Journals.{Stepped};
ghost use Rattle.journal.specs.Kinds.{Answers};
ghost use Rattle.journal.specs.Networks.{Leaves};

use crate::calls::Call;
use crate::replies::{Reply, Starts};
use crate::start_list::StartList;
use network::{Network, Refusal};
use plan::Plan;

// Carries out a call, and gives its whole answer.
pub fn carry_out<L: Network, R: Network<Over = L::Over>>(
    plan: &mut Plan<L, R>,
    call: Call<L, R>,
) -> Reply<L, R>
    ensures answers { Answers call result }
    ensures networks { Leaves plan.old.left.network plan.old.right.network call result plan.new.left.network plan.new.right.network }
    ensures steps { Stepped L.Over.Scale.algebra (model plan.old) (call_of L.Network.meaning R.Network.meaning call) (reply_of result) (model plan.new) }
{
    match call {
        Call::Lower { place, ceiling } => Reply::Changed(plan.lower(place, ceiling)),
        Call::Raise { place, floor } => Reply::Changed(plan.raise(place, floor)),
        Call::Loosen { place, window } => Reply::Changed(plan.loosen(place, window)),
        Call::ExchangeLeft(network) => Reply::ExchangedLeft(plan.exchange_left(network)),
        Call::ExchangeRight(network) => Reply::ExchangedRight(plan.exchange_right(network)),
        Call::Advance(grant) => {
            let (state, made) = plan.advance(grant);
            Reply::Advanced(state, made)
        }
        Call::Adopt => Reply::Changed(plan.adopt()),
        Call::ReadState => Reply::StateIs(plan.state()),
        Call::ReadSlack => Reply::SlackIs(plan.slack()),
        Call::ReadWindow(place) => Reply::WindowIs(plan.window(place)),
        Call::ReadStarts { lefts, rights } => Reply::StartsAre(read_starts(plan, lefts, rights)),
    }
}

// The starts into two lists of these lengths: 12, 14.
fn read_starts<L: Network, R: Network<Over = L::Over>>(
    plan: &Plan<L, R>,
    left_count: usize,
    right_count: usize,
) -> Result<Starts, Refusal>
    ensures { StartsRead (model plan.now) left_count right_count result }
{
    if left_count > 32 || right_count > 32 {
        return Err(Refusal::Lengths);
    }
    let mut lefts = [0; 32];
    let mut rights = [0; 32];
    plan.starts(&mut lefts[..left_count], &mut rights[..right_count])?;
    Ok(Starts {
        lefts: StartList {
            places: lefts,
            count: left_count,
        },
        rights: StartList {
            places: rights,
            count: right_count,
        },
    })
}
