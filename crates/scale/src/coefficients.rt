// Coefficients of a scale: which are present, and what they say of values.
ghost use Rattle.std.specs.Prelude.{◌≡◌, int_le, int_lt};
ghost use Rattle.scale.specs.Algebra.{of_scale, present, counted, clamped, held, InTime};
ghost use Rattle.scale.specs.Presence.{Presence};

use crate::scale::Scale;

// Whether a number is in the scale's coefficient range.
pub fn is_of_scale<S: Scale>(a: i32) -> bool
    ensures { result ≡ of_scale S.Scale.algebra a }
{
    S::LEAST_COEFFICIENT <= a && a <= S::GREATEST_COEFFICIENT
}

// Whether a number is a coefficient of the scale that is present.
pub fn is_present<S: Scale>(a: i32) -> bool
    ensures { result ≡ present S.Scale.algebra a }
{
    is_above(S::product(Some(a), S::HIGHEST), S::LOWEST)
}

fn is_above(x: i32, low: i32) -> bool
    ensures { result ≡ int_lt low x }
{
    x > low
}

// The coefficient, or none where it counts as absent.
pub fn counted<S: Scale>(a: Option<i32>) -> Option<i32>
    ensures { result ≡ counted S.Scale.algebra a }
{
    a.filter(|a| is_present::<S>(*a))
}

// The value, or the nearer end of the scale's range.
pub fn held<S: Scale>(x: i32) -> i32
    ensures { result ≡ held S.Scale.algebra x }
{
    clamped(x, S::LOWEST, S::HIGHEST)
}

// Not by `clamp`, which asks that low is at most high.
fn clamped(x: i32, low: i32, high: i32) -> i32
    ensures { result ≡ clamped low high x }
{
    x.min(high).max(low)
}

// Whether x, taken over the coefficient a, is at most b.
pub fn is_in_time<S: Scale>(a: Option<i32>, x: i32, b: i32) -> bool
    ensures { InTime S.Scale.algebra a x b result }
{
    is_at_most(S::product(a, x), b)
}

fn is_at_most(x: i32, b: i32) -> bool
    ensures { result ≡ int_le x b }
{
    x <= b
}

// Which coefficients are present in each scale.
pub fn presence_stands()
    ensures { Presence }
{}
