// The checks on a bench's new floor or ceiling.
ghost use Rattle.std.specs.Prelude.{MatchBool};
ghost use Rattle.network.specs.Checks.{Checked};
ghost use Rattle.model.specs.Calls.{NotOfScale, ceiling_checks, floor_checks};
ghost use Rattle.benches.specs.Answers.{answer};

use model::{Bench, State};
use network::Refusal;
use scale::Scale;

// Whether a bench may have this ceiling: 7, 11, 8, 13. The state and the record are of a plan and of a bench: nothing holds both.
pub fn check_ceiling<S: Scale>(state: State, b: Bench, ceiling: i32) -> Result<(), Refusal>
    ensures { Checked (ceiling_checks S.Scale.algebra state b ceiling) (answer result) }
{
    if is_outside::<S>(ceiling) {
        return Err(Refusal::Window);
    }
    if b.ceiling < ceiling {
        return Err(Refusal::Direction);
    }
    if ceiling < b.floor {
        return Err(Refusal::Crossed);
    }
    if state == State::Impossible {
        return Err(Refusal::Impossible);
    }
    Ok(())
}

// Whether a bench may have this floor: 7, 11, 8, 13. Each comparison is the other way round than for a ceiling.
pub fn check_floor<S: Scale>(state: State, b: Bench, floor: i32) -> Result<(), Refusal>
    ensures { Checked (floor_checks S.Scale.algebra state b floor) (answer result) }
{
    if is_outside::<S>(floor) {
        return Err(Refusal::Window);
    }
    if floor < b.floor {
        return Err(Refusal::Direction);
    }
    if b.ceiling < floor {
        return Err(Refusal::Crossed);
    }
    if state == State::Impossible {
        return Err(Refusal::Impossible);
    }
    Ok(())
}

// Whether a value is no window value of the scale.
pub(crate) fn is_outside<S: Scale>(v: i32) -> bool
    ensures { MatchBool result (NotOfScale S.Scale.algebra v) (NotOfScale S.Scale.algebra v → ⊥) }
{
    v < S::LEAST_WINDOW || S::GREATEST_WINDOW < v
}
