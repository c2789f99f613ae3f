// The steps of a task, each with its note.
use anyhow::{Context, bail};
use network::{Network, reaches_in_time};

// Asks for the latest starts that keep two limits, checks them, and tries one more on each bench.
pub(crate) fn deadlines<N: Network>(
    rt: &impl Print,
    hall: &N,
    limits: [i32; 2],
) -> anyhow::Result<()> {
    let [first, second] = limits;
    println!(rt;
        "  Asked for the latest starts, with {first} the limit of station 0 and {second} that of station 1:"
    )?;
    let mut starts = [0; 2];
    hall.latest(&limits, &mut starts)
        .context("a list was turned away")?;
    let [x, y] = starts;
    println!(rt; "    bench 0 at {x}, bench 1 at {y}.")?;
    println!(rt; "  Asked what these starts reach:")?;
    reached(rt, hall, [x, y], limits)?;
    println!(rt; "  Asked the same with one more on bench 0:")?;
    reached(rt, hall, [x.saturating_add(1), y], limits)?;
    println!(rt; "  Asked the same with one more on bench 1:")?;
    reached(rt, hall, [x, y.saturating_add(1)], limits)
}

// Prints what two starts reach, and whether that keeps the limits.
fn reached<N: Network>(
    rt: &impl Print,
    hall: &N,
    starts: [i32; 2],
    limits: [i32; 2],
) -> anyhow::Result<()> {
    let mut arrivals = [0; 2];
    hall.arrivals(&starts, &mut arrivals)
        .context("a list was turned away")?;
    let [v, w] = arrivals;
    let kept = reaches_in_time(hall, &starts, &limits).context("a list was turned away")?;
    let verdict = if kept {
        "within the limits"
    } else {
        "past a limit"
    };
    println!(rt; "    station 0 at {v}, station 1 at {w}: {verdict}.")?;
    Ok(())
}

// Asks with a limit too many.
pub(crate) fn turned_away<N: Network>(rt: &impl Print, hall: &N) -> anyhow::Result<()> {
    println!(rt; "  Asked for the latest starts with three limits:")?;
    let mut starts = [7; 2];
    let Err(refusal) = hall.latest(&[100, 100, 100], &mut starts) else {
        bail!("a list of another length was taken");
    };
    let [x, y] = starts;
    println!(rt;
        "    turned away with {}; the list for the answer still holds {x} and {y}.",
        refusal.number(),
    )?;
    Ok(())
}
