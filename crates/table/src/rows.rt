// Loops over one row of a table.
ghost use Rattle.std.specs.Prelude.{◌≡◌, ℕ, ◌<◌, length};
ghost use Rattle.std.specs.Int.{int_min};
ghost use Rattle.scale.specs.Algebra.{product_of, quotient_of};
ghost use Rattle.network.specs.Lists.{at};
ghost use Rattle.table.specs.Tables.{largest};
ghost use Rattle.table.specs.Cells.{asked};

use scale::Scale;

// The number that stands for none.
pub(crate) const ABSENT: i32 = i32::MIN;

// The coefficient that a kept number stands for. A function and not `From`, since Some(i32::MIN) has no number.
pub(crate) fn asked(c: i32) -> Option<i32>
    ensures { result ≡ asked c }
{
    (c > ABSENT).then_some(c)
}

// The arrival over a row.
pub(crate) fn row_arrival<S: Scale>(cells: &[i32], starts: &[i32]) -> i32
    requires { length cells.now ≡ length starts.now }
    ensures { result ≡ largest S.Scale.LOWEST (λ j. product_of S.Scale.algebra (asked (at cells.now j)) (at starts.now j)) (length cells.now) }
{
    largest_product::<S>(S::LOWEST, cells, starts)
}

// The largest of low and the products of a row's coefficients with the starts.
fn largest_product<S: Scale>(low: i32, cells: &[i32], starts: &[i32]) -> i32
    requires { length cells.now ≡ length starts.now }
    ensures { result ≡ largest low (λ j. product_of S.Scale.algebra (asked (at cells.now j)) (at starts.now j)) (length cells.now) }
{
    cells
        .iter()
        .zip(starts)
        .fold(low, |top, (c, x)| top.max(S::product(asked(*c), *x)))
}

// Each start becomes the smaller of itself and the limit's quotient by its coefficient of the row. After a zip of `iter_mut` a
// proof knows none of the values.
pub(crate) fn lower_row<S: Scale>(cells: &[i32], limit: i32, out: &mut [i32])
    requires { length cells.now ≡ length out.old }
    ensures { (k : ℕ) → k < length out.old → at out.new k ≡ int_min (at out.old k) (quotient_of S.Scale.algebra (asked (at cells.now k)) limit) }
{
    for (j, x) in out.iter_mut().enumerate() {
        *x = (*x).min(S::quotient(asked(cells[j]), limit));
    }
}
