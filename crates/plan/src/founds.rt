// Founding a plan.
ghost use Rattle.network.specs.Checks.{Checked};
ghost use Rattle.model.specs.Calls.{size_checks, found_checks};
ghost use Rattle.benches.specs.Answers.{window_answer};
ghost use Rattle.plan.specs.Founding.{Founds};

use crate::founding::Unfounded;
use crate::plan::Plan;
use benches::{Benches, Fault, Hall, check_windows};
use model::{State, Window};
use network::{Network, Refusal};

impl<L: Network, R: Network<Over = L::Over>> Plan<L, R> {
    // A plan at a fresh start, or the first fault: 12 for sizes, then the windows of the left and of the right benches. A
    // refusal hands both networks back.
    pub fn found(
        left: L,
        right: R,
        lefts: &[Window],
        rights: &[Window],
    ) -> Result<Plan<L, R>, Unfounded<L, R>>
        ensures { Founds left right lefts.now rights.now result }
    {
        // not `map_err`: the networks go back only beside the fault, and into the plan otherwise
        if let Err(fault) = check_found(&left, &right, lefts, rights) {
            return Err(Unfounded { fault, left, right });
        }
        Ok(Plan {
            left: Hall {
                network: left,
                benches: Benches::fresh(lefts),
            },
            right: Hall {
                network: right,
                benches: Benches::fresh(rights),
            },
            state: State::Open,
        })
    }
}

// The first fault of what a plan is to be founded on. The four arguments stay apart: the call takes them so, and a struct would
// only be taken apart again.
fn check_found<L: Network, R: Network<Over = L::Over>>(
    left: &L,
    right: &R,
    lefts: &[Window],
    rights: &[Window],
) -> Result<(), Fault>
    ensures { Checked (found_checks L.Over.Scale.algebra (L.Network.meaning left.now) (R.Network.meaning right.now) lefts.now rights.now) (window_answer result) }
{
    check_sizes(left, right, lefts, rights)?;
    check_windows::<L::Over>(0, lefts)?;
    check_windows::<L::Over>(1, rights)
}

// Whether the stations agree, and there is a window for each bench: 12.
fn check_sizes<L: Network, R: Network<Over = L::Over>>(
    left: &L,
    right: &R,
    lefts: &[Window],
    rights: &[Window],
) -> Result<(), Fault>
    ensures { Checked (size_checks (L.Network.meaning left.now) (R.Network.meaning right.now) lefts.now rights.now) (window_answer result) }
{
    if left.stations() != right.stations()
        || lefts.len() != left.benches()
        || rights.len() != right.benches()
    {
        return Err(Fault {
            refusal: Refusal::Lengths,
            place: None,
        });
    }
    Ok(())
}
