// Minutes.
ghost use Rattle.std.specs.Prelude.{◌≡◌, Some, IfSome, refl};
ghost use Rattle.scale.specs.Algebra.{Coefficient, counted, held};
ghost use Rattle.scale.specs.Minutes.{minutes, minutes_product, minutes_quotient};
ghost use Rattle.scale.specs.MinutesLaw.{minutes_lawful};

use crate::scale::Scale;

// The largest ordinary value.
const Q: i32 = 1_000_000_000;

// Below every ordinary value.
const VOID: i32 = -Q - 1;

// Above every ordinary value.
const OPEN: i32 = Q + 1;

// The largest coefficient and window value.
const LIMIT: i32 = 1_000_000;

// Minutes, void and open.
#[derive(Clone, Copy)]
pub struct Minutes;

impl Scale for Minutes {
    const LOWEST: i32 = VOID;

    const HIGHEST: i32 = OPEN;

    const LEAST_WINDOW: i32 = -LIMIT;

    const GREATEST_WINDOW: i32 = LIMIT;

    const LEAST_COEFFICIENT: i32 = -LIMIT;

    const GREATEST_COEFFICIENT: i32 = LIMIT;

    ghost LOWEST = { minutes.lowest };

    ghost HIGHEST = { minutes.highest };

    ghost LEAST_WINDOW = { minutes.least_window };

    ghost GREATEST_WINDOW = { minutes.greatest_window };

    ghost LEAST_COEFFICIENT = { minutes.least_coefficient };

    ghost GREATEST_COEFFICIENT = { minutes.greatest_coefficient };

    ghost algebra = { minutes };

    ghost numbers = { record { lowest_is = refl; highest_is = refl; least_window_is = refl; greatest_window_is = refl; least_coefficient_is = refl; greatest_coefficient_is = refl } };

    ghost lawful = { minutes_lawful };

    fn product(a: Option<i32>, x: i32) -> i32 {
        coefficient(a).map_or(VOID, |a| later(a, x))
    }

    // Of the shape of `product`, but both the step and what stands for absent differ.
    fn quotient(a: Option<i32>, b: i32) -> i32 {
        coefficient(a).map_or(OPEN, |a| earlier(a, b))
    }
}

// The coefficient, or none where it is not one of minutes.
fn coefficient(a: Option<i32>) -> Option<i32>
    ensures value { result ≡ counted minutes a }
    ensures bounds { IfSome result (λ c. Coefficient minutes (Some c)) }
{
    a.filter(|a| (-LIMIT..=LIMIT).contains(a))
}

// The value a minutes after x.
fn later(a: i32, x: i32) -> i32
    requires { Coefficient minutes (Some a) }
    ensures { result ≡ minutes_product (Some a) (held minutes x) }
{
    if x < -Q {
        VOID
    } else if x > Q {
        OPEN
    } else {
        (a + x).clamp(-Q, Q)
    }
}

// The latest value that is at most b when a minutes are added.
fn earlier(a: i32, b: i32) -> i32
    requires { Coefficient minutes (Some a) }
    ensures { result ≡ minutes_quotient (Some a) (held minutes b) }
{
    if b < -Q {
        VOID
    } else if b > Q {
        OPEN
    } else if b == Q || b - a > Q {
        Q
    } else if b - a < -Q {
        VOID
    } else {
        b - a
    }
}
