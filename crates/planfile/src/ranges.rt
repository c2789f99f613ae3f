// What the numbers of a plan file may be.
ghost use Rattle.std.specs.Prelude.{◌≡◌};
ghost use Rattle.planfile.specs.Files.{coefficients, window_values};

use layout::Bounds;
use scale::Scale;

// The bounds of a coefficient, and those of a floor or a ceiling.
#[derive(Clone, Copy)]
pub(crate) struct Ranges {
    pub(crate) coefficients: Bounds,
    pub(crate) windows: Bounds,
}

impl Ranges {
    // The ranges of a scale.
    pub(crate) fn of<S: Scale>() -> Ranges
        ensures of_coefficients { result.coefficients ≡ coefficients S.Scale.algebra }
        ensures of_windows { result.windows ≡ window_values S.Scale.algebra }
    {
        Ranges {
            coefficients: Bounds {
                least: S::LEAST_COEFFICIENT,
                greatest: S::GREATEST_COEFFICIENT,
            },
            windows: Bounds {
                least: S::LEAST_WINDOW,
                greatest: S::GREATEST_WINDOW,
            },
        }
    }
}
