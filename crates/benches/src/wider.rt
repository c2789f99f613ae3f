// The checks on a bench's wider window.
ghost use Rattle.network.specs.Checks.{Checked};
ghost use Rattle.model.specs.Calls.{window_value_checks, wider_checks};
ghost use Rattle.benches.specs.Answers.{answer};

use crate::checks::is_outside;
use model::{Bench, Window};
use network::Refusal;
use scale::Scale;

// Whether both are window values of the scale: 7.
pub fn check_window_values<S: Scale>(w: Window) -> Result<(), Refusal>
    ensures { Checked (window_value_checks S.Scale.algebra w.floor w.ceiling) (answer result) }
{
    if is_outside::<S>(w.floor) || is_outside::<S>(w.ceiling) {
        return Err(Refusal::Window);
    }
    Ok(())
}

// Whether neither is narrower than the bench's: 11.
pub fn check_wider(b: Bench, w: Window) -> Result<(), Refusal>
    ensures { Checked (wider_checks b w.floor w.ceiling) (answer result) }
{
    if b.floor < w.floor || w.ceiling < b.ceiling {
        return Err(Refusal::Direction);
    }
    Ok(())
}
