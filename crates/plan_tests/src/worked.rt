use crate::halls::{Hall, first_halls, first_plan, founded, place, starts, window};
use model::State;
use scale::Grades;
use std::test::Fail;
use table::Table;

#[test]
fn in_step_and_on(rt: HostRuntime) -> Result<(), Fail> {
    let mut plan = first_plan()?;
    assert_eq!(rt; plan.slack(), 300);
    assert_eq!(rt; plan.advance(301), (State::InStep, 2));
    assert_eq!(rt; starts(&plan), Ok(([97, 98], [100])));
    assert_eq!(rt; plan.advance(u64::MAX).1, 0);
    assert_eq!(rt; plan.adopt(), Ok(()));
    assert_eq!(rt; plan.lower(place(0, 0), 97), Ok(()));
    assert_eq!(rt; plan.state(), State::InStep);
    assert_eq!(rt; starts(&plan), Ok(([97, 98], [100])));
    assert_eq!(rt; plan.slack(), 295);
    Ok(())
}

#[test]
fn lowered_and_advanced(rt: HostRuntime) -> Result<(), Fail> {
    let mut plan = first_plan()?;
    let _ = plan.advance(301);
    assert_eq!(rt; plan.lower(place(0, 0), 90), Ok(()));
    assert_eq!(rt; plan.state(), State::Open);
    assert_eq!(rt; plan.advance(1000), (State::InStep, 5));
    assert_eq!(rt; starts(&plan), Ok(([90, 91], [93])));
    Ok(())
}

#[test]
fn impossible_floor(rt: HostRuntime) -> Result<(), Fail> {
    let (left, right) = first_halls()?;
    let mut plan = founded(
        left,
        right,
        &[window(98, 100), window(0, 100)],
        &[window(0, 100)],
    )?;
    assert_eq!(rt; plan.advance(1000), (State::Impossible, 1));
    assert_eq!(rt; plan.slack(), 0);
    Ok(())
}

#[test]
fn impossible_together(rt: HostRuntime) -> Result<(), Fail> {
    let left = Hall::new(2, 1, &[Some(0), Some(1)])?;
    let right = Hall::new(2, 1, &[Some(1), Some(0)])?;
    let mut plan = founded(left, right, &[window(0, 3)], &[window(0, 3)])?;
    assert_eq!(rt; plan.advance(7), (State::Impossible, 2));
    Ok(())
}

#[test]
fn grants(rt: HostRuntime) -> Result<(), Fail> {
    let mut plan = founded(
        Hall::new(1, 1, &[Some(5)])?,
        Hall::new(1, 1, &[Some(5)])?,
        &[window(0, 0)],
        &[window(0, 0)],
    )?;
    assert_eq!(rt; plan.advance(0), (State::Open, 0));
    assert_eq!(rt; plan.advance(1), (State::InStep, 1));
    Ok(())
}

#[test]
fn no_coefficient(rt: HostRuntime) -> Result<(), Fail> {
    let mut plan = founded(
        Hall::new(1, 1, &[None])?,
        Hall::new(1, 1, &[None])?,
        &[window(0, 100)],
        &[window(0, 100)],
    )?;
    assert_eq!(rt; plan.advance(201), (State::InStep, 1));
    assert_eq!(rt; plan.slack(), 200);
    Ok(())
}

#[test]
fn grades(rt: HostRuntime) -> Result<(), Fail> {
    let mut plan = founded(
        Table::<Grades>::new(2, 2, &[Some(9), Some(4), Some(6), Some(12)])?,
        Table::<Grades>::new(2, 1, &[Some(15), Some(7)])?,
        &[window(0, 15), window(0, 15)],
        &[window(0, 15)],
    )?;
    assert_eq!(rt; plan.advance(46), (State::InStep, 2));
    assert_eq!(rt; starts(&plan), Ok(([15, 7], [9])));
    Ok(())
}
