use model::{Place, Window};
use network::Refusal;
use plan::Plan;
use scale::{Minutes, Scale};
use table::Table;

pub(crate) type Hall = Table<Minutes>;

pub(crate) fn founded<S: Scale>(
    left: Table<S>,
    right: Table<S>,
    lefts: &[Window],
    rights: &[Window],
) -> Result<Plan<Table<S>, Table<S>>, Refusal> {
    Plan::found(left, right, lefts, rights).map_err(|unfounded| unfounded.fault.refusal)
}

pub(crate) fn window(floor: i32, ceiling: i32) -> Window {
    Window { floor, ceiling }
}

pub(crate) fn place(side: usize, bench: usize) -> Place {
    Place { side, bench }
}

// Left rows (3, 0) and (1, 2), right rows (0) and (0).
pub(crate) fn first_halls() -> Result<(Hall, Hall), Refusal> {
    let left = Hall::new(2, 2, &[Some(3), Some(0), Some(1), Some(2)])?;
    let right = Hall::new(2, 1, &[Some(0), Some(0)])?;
    Ok((left, right))
}

// The first halls with windows 0 to 100.
pub(crate) fn first_plan() -> Result<Plan<Hall, Hall>, Refusal> {
    let (left, right) = first_halls()?;
    founded(
        left,
        right,
        &[window(0, 100), window(0, 100)],
        &[window(0, 100)],
    )
}

// The starts of a plan in step, two left and one right.
pub(crate) fn starts<S: Scale>(
    plan: &Plan<Table<S>, Table<S>>,
) -> Result<([i32; 2], [i32; 1]), Refusal> {
    let mut lefts = [0; 2];
    let mut rights = [0];
    plan.starts(&mut lefts, &mut rights)?;
    Ok((lefts, rights))
}
