// A plan over two halls, from its founding to a second verdict.
use crate::asked::{Hall, STORY};
use crate::halls::MINUTES;
use crate::told::print_reply;
use anyhow::{Context, bail};
use journal::{Journal, Reply, replay};
use model::Window;
use table::Table;

const WINDOW: Window = Window {
    floor: 0,
    ceiling: 100,
};

// Founds the plan and carries out the journal; prints each call with its reply.
pub(crate) fn plan_story(rt: &(impl Print + AllocGlobal)) -> anyhow::Result<()> {
    println!(rt;
        "A plan in minutes: the hall from before on the left, and on the right a hall of one bench,"
    )?;
    println!(rt;
        "  whose parts take 0 minutes to both stations; every bench may start from 0 to 100."
    )?;
    let calls = STORY
        .iter()
        .map(|(_, step)| step.call())
        .collect(rt.alloc())?;
    // not by `context`: what comes back are the calls, which are no error
    let Ok(journal) = Journal::new(rt.alloc(), calls) else {
        bail!("no memory for the replies");
    };
    let left = Table::new(2, 2, &MINUTES).context("no table of minutes was made")?;
    let right = Table::new(2, 1, &[Some(0), Some(0)]).context("no table of minutes was made")?;
    // A `match`: by `map_err` and `context` the plan would be moved twice more.
    let (plan, replies) = match replay(left, right, &[WINDOW, WINDOW], &[WINDOW], journal) {
        Ok(told) => told,
        Err(unstarted) => {
            return Err(unstarted.unfounded.fault.refusal).context("no plan was founded");
        }
    };
    print_replies(rt, &replies)?;
    println!(rt; "  The slack at the end is {}.", plan.slack())?;
    Ok(())
}

fn print_replies(rt: &impl Print, replies: &[Reply<Hall, Hall>]) -> anyhow::Result<()> {
    for ((note, _), reply) in STORY.iter().zip(replies) {
        println!(rt; "  {note}:")?;
        print_reply(rt, reply)?;
    }
    Ok(())
}
