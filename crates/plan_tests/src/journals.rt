use crate::halls::{Hall, first_halls, place, starts, window};
use journal::{Call, Journal, Reply, StartList, replay};
use model::State;
use network::Refusal;
use std::alloc::Global;
use std::collections::VecDeque;
use std::test::Fail;

fn calls(heap: Global) -> Result<VecDeque<Call<Hall, Hall>>, Fail> {
    let calls = [
        Call::Advance(301),
        Call::Lower {
            place: place(0, 0),
            ceiling: 101,
        },
        Call::ReadStarts {
            lefts: 2,
            rights: 1,
        },
        Call::Lower {
            place: place(0, 0),
            ceiling: 90,
        },
        Call::ReadState,
        Call::Advance(1000),
        Call::ExchangeLeft(Hall::new(1, 2, &[Some(1), Some(2)])?),
    ];
    Ok(calls.into_iter().collect(heap)?)
}

#[test]
fn whole_journal(rt: HostRuntime) -> Result<(), Fail> {
    let Ok(journal) = Journal::new(rt.alloc(), calls(rt.alloc())?) else {
        return Err(Fail::new("no memory"));
    };
    let (left, right) = first_halls()?;
    let Ok((plan, replies)) = replay(
        left,
        right,
        &[window(0, 100), window(0, 100)],
        &[window(0, 100)],
        journal,
    ) else {
        return Err(Fail::new("not founded"));
    };
    assert_eq!(rt; starts(&plan), Ok(([90, 91], [93])));
    assert_eq!(rt; replies.len(), 7);
    // By their shapes, since networks cannot be compared.
    assert!(rt; matches!(&replies[0], Reply::Advanced(State::InStep, 2)));
    assert!(rt; matches!(&replies[1], Reply::Changed(Err(Refusal::Direction))));
    assert!(rt; matches!(&replies[2], Reply::StartsAre(Ok(_))));
    assert!(rt; matches!(&replies[3], Reply::Changed(Ok(()))));
    assert!(rt; matches!(&replies[4], Reply::StateIs(State::Open)));
    assert!(rt; matches!(&replies[5], Reply::Advanced(State::InStep, 5)));
    assert!(rt; matches!(&replies[6], Reply::ExchangedLeft(Err(_))));
    Ok(())
}

#[test]
fn unfounded_journal(rt: HostRuntime) -> Result<(), Fail> {
    let mut calls: VecDeque<Call<Hall, Hall>> = VecDeque::new(rt.alloc());
    calls.push_back(Call::Adopt)?;
    let Ok(journal) = Journal::new(rt.alloc(), calls) else {
        return Err(Fail::new("no memory"));
    };
    let Err(back) = replay(
        Hall::new(1, 1, &[None])?,
        Hall::new(1, 1, &[None])?,
        &[window(1, 0)],
        &[window(0, 0)],
        journal,
    ) else {
        return Err(Fail::new("founded"));
    };
    assert_eq!(rt; back.unfounded.fault.refusal, Refusal::Crossed);
    Ok(())
}

#[test]
fn start_lists(rt: HostRuntime) -> Result<(), Fail> {
    let Some(list) = StartList::new(&[97, 98]) else {
        return Err(Fail::new("not made"));
    };
    let copy = list;
    assert_eq!(rt; list, copy);
    assert!(rt; Some(list) != StartList::new(&[97, 98, 0]));
    assert_eq!(rt; list.as_slice(), [97, 98].as_slice());
    assert_eq!(rt; format!(in rt.alloc(); "{list:?}")?.as_str(), "[97, 98]");
    assert_eq!(rt; StartList::new(&[0; 33]), None);
    Ok(())
}
