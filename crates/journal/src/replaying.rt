// Carrying out a whole journal.
ghost use Rattle.plan.specs.Models.{model};
ghost use Rattle.journal.specs.Journals.{Replayed, Begins, Replays, calls_of, replies_of};
ghost use Rattle.journal.specs.Kinds.{AnswersEach};
ghost use Rattle.journal.specs.Networks.{LeavesAfter};

use crate::carrying::carry_out;
use crate::entries::Journal;
use crate::replies::Reply;
use crate::unstarted::Unstarted;
use model::Window;
use network::Network;
use plan::Plan;

// Founds a plan and carries out the calls of a journal in their order. The plan, and the reply to each call. The networks and
// windows stay four parameters, as `Plan::found` takes them: a struct of them would be made only to be taken apart here.
pub fn replay<L: Network + Drop, R: Network<Over = L::Over> + Drop>(
    left: L,
    right: R,
    lefts: &[Window],
    rights: &[Window],
    journal: Journal<L, R>,
) -> Result<(Plan<L, R>, Vec<Reply<L, R>>), Unstarted<L, R>>
    ensures { Replays left right lefts.now rights.now journal result }
{
    let (mut plan, journal) = begin(left, right, lefts, rights, journal)?;
    let replies = carry_out_all(&mut plan, journal);
    Ok((plan, replies))
}

// Founds the plan of a journal, or hands everything back.
fn begin<L: Network + Drop, R: Network<Over = L::Over> + Drop>(
    left: L,
    right: R,
    lefts: &[Window],
    rights: &[Window],
    journal: Journal<L, R>,
) -> Result<(Plan<L, R>, Journal<L, R>), Unstarted<L, R>>
    ensures { Begins left right lefts.now rights.now journal result }
{
    // A `match`: both arms hand the journal on, and of two closures only one could own it.
    match Plan::found(left, right, lefts, rights) {
        Ok(plan) => Ok((plan, journal)),
        Err(unfounded) => Err(Unstarted { unfounded, journal }),
    }
}

// Carries out the calls of a journal in their order. The reply to each.
fn carry_out_all<L: Network + Drop, R: Network<Over = L::Over> + Drop>(
    plan: &mut Plan<L, R>,
    journal: Journal<L, R>,
) -> Vec<Reply<L, R>>
    ensures networks { LeavesAfter plan.old.left.network plan.old.right.network journal.calls.items result.items plan.new.left.network plan.new.right.network }
    ensures answers { AnswersEach journal.calls.items result.items }
    ensures runs { Replayed L.Over.Scale.algebra (model plan.old) (calls_of L.Network.meaning R.Network.meaning journal) (replies_of result) (model plan.new) }
{
    let Journal {
        calls,
        room: mut replies,
    } = journal;
    for call in calls {
        replies.push_reserved(carry_out(plan, call));
    }
    replies
}
