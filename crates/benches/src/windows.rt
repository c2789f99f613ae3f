// The checks on the windows of a side.
ghost use Rattle.network.specs.Checks.{Checked};
ghost use Rattle.model.specs.Calls.{window_check, window_checks};
ghost use Rattle.benches.specs.Answers.{window_answer};

use crate::checks::is_outside;
use model::{Place, Window};
use network::Refusal;
use scale::Scale;

// Why a plan is not founded, and the bench that it is about.
#[derive(Clone, Copy, Debug, PartialEq, Eq)]
pub struct Fault {
    pub refusal: Refusal,
    pub place: Option<Place>,
}

// The first fault of a side's windows, bench by bench: 7 for a floor, 7 for a ceiling, 8 for a floor above its ceiling. The side is a
// number, as in a place.
pub fn check_windows<S: Scale>(side: usize, windows: &[Window]) -> Result<(), Fault>
    ensures { Checked (window_checks S.Scale.algebra side 0 windows.now) (window_answer result) }
{
    for (bench, w) in windows.iter().enumerate() {
        check_window::<S>(Place { side, bench }, *w)?;
    }
    Ok(())
}

fn check_window<S: Scale>(place: Place, w: Window) -> Result<(), Fault>
    ensures { Checked (window_check S.Scale.algebra place.side place.bench w) (window_answer result) }
{
    let fault = |refusal| Fault {
        refusal,
        place: Some(place),
    };
    if is_outside::<S>(w.floor) || is_outside::<S>(w.ceiling) {
        return Err(fault(Refusal::Window));
    }
    if w.ceiling < w.floor {
        return Err(fault(Refusal::Crossed));
    }
    Ok(())
}
