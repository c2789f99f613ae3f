// Loops over the coefficients of a carriage. An index stands where a list is written: after a zip of `iter_mut` a proof knows
// none of its values.
ghost use Rattle.std.specs.Prelude.{◌≡◌, length};
ghost use Rattle.network.specs.Kinds.{multiplied, divided, FirstAbsent};

use scale::{Scale, counted};

// The first coefficient that is absent or not of the scale.
pub(crate) fn first_absent<S: Scale>(coefficients: &[Option<i32>]) -> Option<usize>
    ensures { FirstAbsent S.Scale.algebra coefficients.now result }
{
    coefficients.iter().position(|a| counted::<S>(*a).is_none())
}

// Each value becomes its product with its coefficient. Of the shape of `divide` and `hold`, one line each: a closure for it would be
// as long.
pub(crate) fn multiply<S: Scale>(coefficients: &[Option<i32>], out: &mut [i32])
    requires { length coefficients.now ≡ length out.old }
    ensures { out.new ≡ multiplied S.Scale.algebra coefficients.now (length out.old) out.old }
{
    for (i, x) in out.iter_mut().enumerate() {
        *x = S::product(coefficients[i], *x);
    }
}

// Writes the quotient of each limit by its coefficient.
pub(crate) fn divide<S: Scale>(coefficients: &[Option<i32>], limits: &[i32], out: &mut [i32])
    requires coefficients { length coefficients.now ≡ length out.old }
    requires limits { length limits.now ≡ length out.old }
    ensures { out.new ≡ divided S.Scale.algebra coefficients.now (length out.old) limits.now }
{
    for (i, x) in out.iter_mut().enumerate() {
        *x = S::quotient(coefficients[i], limits[i]);
    }
}
