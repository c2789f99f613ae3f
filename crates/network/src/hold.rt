// Values as the scale counts them.
ghost use Rattle.std.specs.Prelude.{◌≡◌, length};
ghost use Rattle.network.specs.Kinds.{handed};

use scale::{Scale, held};

// Writes each value of `from`, the nearer end for one outside the range. After a zip of `iter_mut` a proof knows none of the values.
pub(crate) fn hold<S: Scale>(from: &[i32], out: &mut [i32])
    requires { length from.now ≡ length out.old }
    ensures { out.new ≡ handed S.Scale.algebra (length out.old) from.now }
{
    for (i, x) in out.iter_mut().enumerate() {
        *x = held::<S>(from[i]);
    }
}
