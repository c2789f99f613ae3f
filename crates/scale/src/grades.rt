// Fit grades.
ghost use Rattle.std.specs.Prelude.{◌≡◌, pos, refl};
ghost use Rattle.std.specs.Option.{unwrap_or};
ghost use Rattle.scale.specs.Algebra.{counted, held};
ghost use Rattle.scale.specs.Grades.{grades};
ghost use Rattle.scale.specs.GradesLaw.{grades_lawful};

use crate::scale::Scale;

// The finest grade.
const FINEST: i32 = 15;

// Fit grades from 0 to 15.
#[derive(Clone, Copy)]
pub struct Grades;

impl Scale for Grades {
    const LOWEST: i32 = 0;

    const HIGHEST: i32 = FINEST;

    const LEAST_WINDOW: i32 = 0;

    const GREATEST_WINDOW: i32 = FINEST;

    const LEAST_COEFFICIENT: i32 = 0;

    const GREATEST_COEFFICIENT: i32 = FINEST;

    ghost LOWEST = { grades.lowest };

    ghost HIGHEST = { grades.highest };

    ghost LEAST_WINDOW = { grades.least_window };

    ghost GREATEST_WINDOW = { grades.greatest_window };

    ghost LEAST_COEFFICIENT = { grades.least_coefficient };

    ghost GREATEST_COEFFICIENT = { grades.greatest_coefficient };

    ghost algebra = { grades };

    ghost numbers = { record { lowest_is = refl; highest_is = refl; least_window_is = refl; greatest_window_is = refl; least_coefficient_is = refl; greatest_coefficient_is = refl } };

    ghost lawful = { grades_lawful };

    fn product(a: Option<i32>, x: i32) -> i32 {
        coefficient(a).min(grade(x))
    }

    fn quotient(a: Option<i32>, b: i32) -> i32 {
        let b = grade(b);
        if coefficient(a) <= b { FINEST } else { b }
    }
}

// The coefficient as a grade; absent is 0.
fn coefficient(a: Option<i32>) -> i32
    ensures { result ≡ unwrap_or (counted grades a) (pos 0) }
{
    a.filter(|a| (0..=FINEST).contains(a)).unwrap_or(0)
}

// The nearer grade.
fn grade(x: i32) -> i32
    ensures { result ≡ held grades x }
{
    x.clamp(0, FINEST)
}
