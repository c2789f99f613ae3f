// A hall's task and a plan's story from beginning to end, with a note of each step.
#![tactic(auto)]

mod asked;
mod halls;
mod steps;
mod story;
mod told;

use crate::halls::{grades_hall, minutes_hall, minutes_pile};
use crate::story::plan_story;

fn main(rt: HostRuntime) -> anyhow::Result<()> {
    minutes_hall(&rt)?;
    minutes_pile(&rt)?;
    grades_hall(&rt)?;
    plan_story(&rt)
}
