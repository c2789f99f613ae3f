use crate::halls::{Hall, first_halls, first_plan, place, starts, window};
use benches::Fault;
use model::{State, Window};
use network::Refusal;
use plan::Plan;
use std::test::Fail;

// The fault of founding a plan over the first halls with these windows.
fn fault(lefts: &[Window], rights: &[Window]) -> Result<Option<Fault>, Refusal> {
    let (left, right) = first_halls()?;
    let unfounded = Plan::found(left, right, lefts, rights).err();
    Ok(unfounded.map(|unfounded| unfounded.fault))
}

fn at_bench(refusal: Refusal, side: usize, bench: usize) -> Option<Fault> {
    Some(Fault {
        refusal,
        place: Some(place(side, bench)),
    })
}

#[test]
fn of_found(rt: HostRuntime) -> Result<(), Fail> {
    let good = window(0, 100);
    let low = window(-1_000_001, 100);
    let high = window(0, 1_000_001);
    let crossed = window(5, 4);
    let outside = window(1_000_001, -1_000_001);
    let lengths = Some(Fault {
        refusal: Refusal::Lengths,
        place: None,
    });
    assert_eq!(rt; fault(&[good, good], &[good])?, None);
    assert_eq!(rt; fault(&[good], &[good])?, lengths);
    assert_eq!(rt; fault(&[low, good], &[])?, lengths);
    assert_eq!(rt;
        fault(&[good, low], &[crossed])?,
        at_bench(Refusal::Window, 0, 1)
    );
    assert_eq!(rt;
        fault(&[high, low], &[crossed])?,
        at_bench(Refusal::Window, 0, 0)
    );
    assert_eq!(rt;
        fault(&[good, crossed], &[low])?,
        at_bench(Refusal::Crossed, 0, 1)
    );
    assert_eq!(rt;
        fault(&[good, good], &[crossed])?,
        at_bench(Refusal::Crossed, 1, 0)
    );
    assert_eq!(rt;
        fault(&[good, good], &[outside])?,
        at_bench(Refusal::Window, 1, 0)
    );
    Ok(())
}

#[test]
fn of_stations(rt: HostRuntime) -> Result<(), Fail> {
    let left = Hall::new(1, 1, &[Some(3)])?;
    let right = Hall::new(2, 1, &[Some(0), Some(0)])?;
    let Err(refused) = Plan::found(left, right, &[window(0, 1)], &[window(0, 1)]) else {
        return Err(Fail::new("founded"));
    };
    assert_eq!(rt; refused.fault.refusal, Refusal::Lengths);
    assert_eq!(rt; refused.right.cell(1, 0), Some(0));
    Ok(())
}

// A plan in step, (97, 98; 100), that a refused call left as it was.
fn is_as_it_was(plan: &Plan<Hall, Hall>) -> bool {
    starts(plan) == Ok(([97, 98], [100])) && plan.slack() == 295
}

fn in_step() -> Result<Plan<Hall, Hall>, Refusal> {
    let mut plan = first_plan()?;
    let _ = plan.advance(301);
    Ok(plan)
}

#[test]
fn of_lower_and_raise(rt: HostRuntime) -> Result<(), Fail> {
    let mut plan = in_step()?;
    for (at, ceiling, refusal) in [
        (place(2, 0), 5, Refusal::Place),
        (place(0, 2), 5, Refusal::Place),
        (place(1, 1), 5, Refusal::Place),
        (place(0, 0), 1_000_001, Refusal::Window),
        (place(0, 0), 101, Refusal::Direction),
        (place(0, 0), -1, Refusal::Crossed),
    ] {
        assert_eq!(rt; plan.lower(at, ceiling), Err(refusal));
        assert!(rt; is_as_it_was(&plan));
    }
    for (at, floor, refusal) in [
        (place(2, 0), 5, Refusal::Place),
        (place(0, 2), 5, Refusal::Place),
        (place(0, 0), -1_000_001, Refusal::Window),
        (place(0, 0), -1, Refusal::Direction),
        (place(0, 0), 101, Refusal::Crossed),
    ] {
        assert_eq!(rt; plan.raise(at, floor), Err(refusal));
        assert!(rt; is_as_it_was(&plan));
    }
    Ok(())
}

#[test]
fn of_loosen(rt: HostRuntime) -> Result<(), Fail> {
    let mut plan = in_step()?;
    for (at, wide, refusal) in [
        (place(2, 0), window(0, 100), Refusal::Place),
        (place(1, 1), window(0, 100), Refusal::Place),
        (place(0, 0), window(-1_000_001, 100), Refusal::Window),
        (place(0, 0), window(0, 1_000_001), Refusal::Window),
        (place(0, 0), window(1, 100), Refusal::Direction),
        (place(0, 0), window(0, 99), Refusal::Direction),
    ] {
        assert_eq!(rt; plan.loosen(at, wide), Err(refusal));
        assert!(rt; is_as_it_was(&plan));
    }
    Ok(())
}

#[test]
fn of_exchange(rt: HostRuntime) -> Result<(), Fail> {
    let mut plan = in_step()?;
    let Err(stations) = plan.exchange_left(Hall::new(1, 2, &[Some(1), Some(2)])?) else {
        return Err(Fail::new("taken"));
    };
    assert_eq!(rt; stations.refusal, Refusal::Lengths);
    assert_eq!(rt; stations.network.cell(0, 1), Some(2));
    assert!(rt; is_as_it_was(&plan));
    let Err(benches) = plan.exchange_right(Hall::new(2, 2, &[Some(1), Some(2), None, None])?) else {
        return Err(Fail::new("taken"));
    };
    assert_eq!(rt; benches.refusal, Refusal::Lengths);
    assert!(rt; is_as_it_was(&plan));
    let Ok(old) = plan.exchange_right(Hall::new(2, 1, &[Some(2), Some(2)])?) else {
        return Err(Fail::new("refused"));
    };
    assert_eq!(rt; old.cell(0, 0), Some(0));
    assert_eq!(rt; plan.state(), State::Open);
    assert_eq!(rt; plan.slack(), 300);
    Ok(())
}

#[test]
fn of_readings(rt: HostRuntime) -> Result<(), Fail> {
    let mut plan = first_plan()?;
    assert_eq!(rt; plan.window(place(0, 2)), Err(Refusal::Place));
    assert_eq!(rt; plan.window(place(2, 0)), Err(Refusal::Place));
    let mut lefts = [7; 2];
    let mut rights = [8];
    let mut long = [9; 3];
    assert_eq!(rt;
        plan.starts(&mut lefts, &mut rights),
        Err(Refusal::NotInStep)
    );
    assert_eq!(rt; plan.starts(&mut long, &mut rights), Err(Refusal::Lengths));
    assert_eq!(rt; plan.starts(&mut lefts, &mut long), Err(Refusal::Lengths));
    assert_eq!(rt; (lefts, rights, long), ([7; 2], [8], [9; 3]));
    assert_eq!(rt; plan.adopt(), Err(Refusal::NotInStep));
    let _ = plan.advance(301);
    assert_eq!(rt; plan.starts(&mut lefts, &mut rights), Ok(()));
    assert_eq!(rt; (lefts, rights), ([97, 98], [100]));
    Ok(())
}

#[test]
fn of_an_impossible_plan(rt: HostRuntime) -> Result<(), Fail> {
    let mut plan = in_step()?;
    assert_eq!(rt; plan.raise(place(0, 0), 97), Ok(()));
    assert_eq!(rt; plan.state(), State::InStep);
    assert_eq!(rt; plan.raise(place(0, 0), 98), Ok(()));
    assert_eq!(rt; plan.state(), State::Impossible);
    assert_eq!(rt; plan.slack(), 0);
    assert_eq!(rt; plan.lower(place(0, 0), 99), Err(Refusal::Impossible));
    assert_eq!(rt; plan.raise(place(0, 0), 99), Err(Refusal::Impossible));
    assert_eq!(rt; plan.lower(place(0, 0), 101), Err(Refusal::Direction));
    assert_eq!(rt; plan.adopt(), Err(Refusal::NotInStep));
    assert_eq!(rt; plan.advance(9), (State::Impossible, 0));
    assert_eq!(rt; plan.loosen(place(0, 0), window(0, 100)), Ok(()));
    assert_eq!(rt; plan.advance(301).0, State::InStep);
    assert_eq!(rt; starts(&plan), Ok(([97, 98], [100])));
    Ok(())
}
