// A plan over networks that are only lent, and lists beside a text: they are moved like any other value.
use crate::halls::{Hall, first_halls, window};
use benches::Benches;
use journal::{StartList, Starts};
use model::{State, Window};
use network::{Network, Refusal};
use plan::{Plan, Unfounded};
use std::test::Fail;

#[derive(Drop)]
struct Lent<'a, N> {
    below: &'a N,
}

impl<'a, N: Network> Network for Lent<'a, N> {
    type Over = N::Over;

    ghost meaning = { λ l. N.Network.meaning l.below.now };

    fn stations(&self) -> usize {
        self.below.stations()
    }

    fn benches(&self) -> usize {
        self.below.benches()
    }

    fn arrivals(&self, starts: &[i32], out: &mut [i32]) -> Result<(), Refusal> {
        self.below.arrivals(starts, out)
    }

    fn latest(&self, limits: &[i32], out: &mut [i32]) -> Result<(), Refusal> {
        self.below.latest(limits, out)
    }

    ghost lawful = { λ l. N.Network.lawful l.below.now };
}

type LentPlan<'a> = Plan<Lent<'a, Hall>, Lent<'a, Hall>>;

type Unlent<'a> = Unfounded<Lent<'a, Hall>, Lent<'a, Hall>>;

// Founded, and passed on by `?`.
fn lent_plan<'a>(
    left: &'a Hall,
    right: &'a Hall,
    lefts: &[Window],
    rights: &[Window],
) -> Result<LentPlan<'a>, Unlent<'a>> {
    let plan = Plan::found(Lent { below: left }, Lent { below: right }, lefts, rights)?;
    Ok(plan)
}

fn passed_on<'a>(kept: Option<(Benches, &'a str)>) -> Option<(Benches, &'a str)> {
    kept
}

#[test]
fn lent_networks(rt: HostRuntime) -> Result<(), Fail> {
    let (left, right) = first_halls()?;
    let windows = [window(0, 100), window(0, 100)];
    let Ok(mut plan) = lent_plan(&left, &right, &windows, &windows[..1]) else {
        return Err(Fail::new("not founded"));
    };
    assert_eq!(rt; plan.advance(301), (State::InStep, 2));
    let mut lefts = [0; 2];
    let mut rights = [0; 1];
    plan.starts(&mut lefts, &mut rights)?;
    assert_eq!(rt; lefts, [97, 98]);
    assert_eq!(rt; rights, [100]);
    Ok(())
}

#[test]
fn lists_beside_texts(rt: HostRuntime) -> Result<(), Fail> {
    let Some(list) = StartList::new(&[97, 98]) else {
        return Err(Fail::new("not made"));
    };
    let mut told = Vec::new(rt.alloc());
    told.push((
        "first",
        Starts {
            lefts: list,
            rights: list,
        },
    ))?;
    let last = told.pop().map(|(note, told)| (note, told.rights));
    assert_eq!(rt; last, Some(("first", list)));
    let kept = passed_on(Some((Benches::fresh(&[window(0, 5)]), "kept")));
    assert_eq!(rt;
        kept.map(|(benches, note)| (benches.count(), note)),
        Some((1, "kept"))
    );
    Ok(())
}
