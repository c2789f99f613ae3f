// Changes of a bench's window.
ghost use Rattle.std.specs.Prelude.{◌≡◌, ◌++◌, if◌then◌else◌, int_lt};
ghost use Rattle.network.specs.Checks.{Checked};
ghost use Rattle.model.specs.Calls.{change_at, lower_bench, raise_bench, Lowered, Raised, Loosened, window_value_checks, wider_checks};
ghost use Rattle.model.specs.declared.state.State.TheVariants.{Open, Impossible};
ghost use Rattle.model.specs.Sheets.{window, own_sheet, fresh};
ghost use Rattle.benches.specs.Answers.{answer};
ghost use Rattle.plan.specs.Models.{model};
ghost use Rattle.plan.specs.Standing.{SameNetworks};

use crate::plan::Plan;
use benches::{check_ceiling, check_floor, check_wider, check_window_values};
use model::{Bench, Place, State, Window};
use network::{Network, Refusal};
use scale::Scale;

impl<L: Network, R: Network<Over = L::Over>> Plan<L, R> {
    // Sets a ceiling, which may only go down: 10, 7, 11, 8, 13.
    pub fn lower(&mut self, place: Place, ceiling: i32) -> Result<(), Refusal>
        ensures networks { SameNetworks self.old self.new }
        ensures call { Lowered L.Over.Scale.algebra (model self.old) place.side place.bench ceiling (answer result) (model self.new) }
    {
        let b = self.bench(place)?;
        check_ceiling::<L::Over>(self.state, b, ceiling)?;
        let (row, state) = lowered(self.state, b, ceiling);
        self.put(place, row);
        self.state = state;
        Ok(())
    }

    // Sets a floor, which may only go up: 10, 7, 11, 8, 13. Of the shape of `lower`, but the checks, the record and the state differ.
    pub fn raise(&mut self, place: Place, floor: i32) -> Result<(), Refusal>
        ensures networks { SameNetworks self.old self.new }
        ensures call { Raised L.Over.Scale.algebra (model self.old) place.side place.bench floor (answer result) (model self.new) }
    {
        let b = self.bench(place)?;
        check_floor::<L::Over>(self.state, b, floor)?;
        let (row, state) = raised(self.state, b, floor);
        self.put(place, row);
        self.state = state;
        Ok(())
    }

    // Sets a floor and a ceiling, which may only widen the window, and makes a fresh start: 10, 7, 11.
    pub fn loosen(&mut self, place: Place, window: Window) -> Result<(), Refusal>
        ensures networks { SameNetworks self.old self.new }
        ensures call { Loosened L.Over.Scale.algebra (model self.old) place.side place.bench window.floor window.ceiling (answer result) (model self.new) }
    {
        let b = self.bench(place)?;
        check_loosen::<L::Over>(b, window)?;
        self.put_and_restart(place, widened(window));
        Ok(())
    }

    // Puts another record in the place of a bench's, and makes a fresh start.
    fn put_and_restart(&mut self, place: Place, row: Bench)
        ensures networks { SameNetworks self.old self.new }
        ensures plan { model self.new ≡ fresh (own_sheet (change_at (model self.old) place.side place.bench (λ _. row))) }
    {
        self.put(place, row);
        self.restart();
    }
}

// The record of a bench after a ceiling, and the plan's state, which nothing else holds together: open where the ceiling cuts the start.
fn lowered(state: State, b: Bench, ceiling: i32) -> (Bench, State)
    ensures row { result.0 ≡ lower_bench ceiling b }
    ensures state { result.1 ≡ (if int_lt ceiling b.start then Open else state) }
{
    let row = b.lowered(ceiling);
    if ceiling < b.start {
        (row, State::Open)
    } else {
        (row, state)
    }
}

// The record of a bench after a floor, and the plan's state: impossible where the start lies below the floor.
fn raised(state: State, b: Bench, floor: i32) -> (Bench, State)
    ensures row { result.0 ≡ raise_bench floor b }
    ensures state { result.1 ≡ (if int_lt b.start floor then Impossible else state) }
{
    let row = b.raised(floor);
    if b.start < floor {
        (row, State::Impossible)
    } else {
        (row, state)
    }
}

// A bench with this window.
fn widened(w: Window) -> Bench
    ensures { window result ≡ w }
{
    Bench::from(w)
}

fn check_loosen<S: Scale>(b: Bench, window: Window) -> Result<(), Refusal>
    ensures { Checked (window_value_checks S.Scale.algebra window.floor window.ceiling ++ wider_checks b window.floor window.ceiling) (answer result) }
{
    check_window_values::<S>(window)?;
    check_wider(b, window)
}
