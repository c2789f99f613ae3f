// The halls that are worked through.
use crate::steps::{deadlines, turned_away};
use anyhow::Context;
use network::{Carriage, Series, Straight};
use scale::{Grades, Minutes};
use table::Table;

// The rows (3, 0) and (1, 2).
pub(crate) const MINUTES: [Option<i32>; 4] = [Some(3), Some(0), Some(1), Some(2)];

// The rows (9, 4) and (6, 12).
const GRADES: [Option<i32>; 4] = [Some(9), Some(4), Some(6), Some(12)];

// One table in minutes.
pub(crate) fn minutes_hall(rt: &impl Print) -> anyhow::Result<()> {
    println!(rt; "A hall in minutes: 2 benches, 2 stations.")?;
    println!(rt; "  From bench 0 a part takes 3 minutes to station 0 and 1 to station 1.")?;
    println!(rt; "  From bench 1 it takes 0 minutes to station 0 and 2 to station 1.")?;
    let hall = Table::<Minutes>::new(2, 2, &MINUTES).context("no table of minutes was made")?;
    deadlines(rt, &hall, [100, 100])?;
    turned_away(rt, &hall)
}

// A straight before the table, and a carriage over both.
pub(crate) fn minutes_pile(rt: &impl Print) -> anyhow::Result<()> {
    println!(rt; "The same hall behind a straight, under a carriage:")?;
    println!(rt; "  the straight hands each start on as it is, and from the hall the carriage")?;
    println!(rt; "  takes 5 minutes more to station 0 and 2 more to station 1.")?;
    let hall = Table::<Minutes>::new(2, 2, &MINUTES).context("no table of minutes was made")?;
    let before = Straight::<Minutes>::new(2).context("no straight was made")?;
    let both = Series::new(before, hall)
        .map_err(|unjoined| unjoined.refusal)
        .context("no series was made")?;
    let pile = Carriage::new(both, &[Some(5), Some(2)])
        .map_err(|uncarried| uncarried.refusal)
        .context("no carriage was made")?;
    deadlines(rt, &pile, [100, 100])
}

// One table in fit grades.
pub(crate) fn grades_hall(rt: &impl Print) -> anyhow::Result<()> {
    println!(rt; "A hall in fit grades, 0 to 15: 2 benches, 2 stations.")?;
    println!(rt; "  A part of bench 0 counts at most 9 at station 0 and 6 at station 1,")?;
    println!(rt; "  one of bench 1 at most 4 and 12; a station counts its finest part.")?;
    let hall = Table::<Grades>::new(2, 2, &GRADES).context("no table of grades was made")?;
    deadlines(rt, &hall, [5, 10])
}
