// Loops over bench records. An index stands where a list is written beside another: after a zip of `iter_mut` a proof knows none
// of its values.
ghost use Rattle.std.specs.Prelude.{◌≡◌, ◌≤◌, ◌^◌, map, length, pos, ◌-ℤ◌, neg_ℤ, ◌≤ℤ◌, slice_set};
ghost use Rattle.std.specs.List.{AllZip};
ghost use Rattle.model.specs.Plans.{starts, cut, spare, same_list};
ghost use Rattle.model.specs.Sheets.{fresh_bench};

use model::{Bench, Window};

// Puts another record at a place, where there is one.
pub(crate) fn put_row(rows: &mut [Bench], bench: usize, row: Bench)
    ensures { rows.new ≡ slice_set rows.old bench row }
{
    if bench < rows.len() {
        rows[bench] = row;
    }
}

// Each record becomes what `f` makes of it.
pub(crate) fn rewrite<F: Fn(Bench) -> Bench>(rows: &mut [Bench], f: F)
    requires { F.IsAlwaysCallable f }
    ensures { AllZip (F.post f) rows.old rows.new }
{
    for b in rows.iter_mut() {
        *b = f(*b);
    }
}

// Writes the records of these windows.
pub(crate) fn write_fresh(windows: &[Window], rows: &mut [Bench])
    requires { length windows.now ≡ length rows.old }
    ensures { rows.new ≡ map fresh_bench windows.now }
{
    for (i, w) in windows.iter().enumerate() {
        rows[i] = Bench::from(*w);
    }
}

// Writes the starts.
pub(crate) fn write_starts(rows: &[Bench], out: &mut [i32])
    requires { length rows.now ≡ length out.old }
    ensures { out.new ≡ starts rows.now }
{
    for (i, b) in rows.iter().enumerate() {
        out[i] = b.start;
    }
}

// Each start becomes the smaller of itself and its limit. Says whether none changed.
pub(crate) fn cut_rows(rows: &mut [Bench], limits: &[i32]) -> bool
    requires { length rows.old ≡ length limits.now }
    ensures table { rows.new ≡ cut rows.old limits.now }
    ensures count { length rows.new ≡ length rows.old }
    ensures rests { result ≡ same_list (starts rows.old) (starts rows.new) }
{
    let mut rests = true;
    for (i, limit) in limits.iter().enumerate() {
        if *limit < rows[i].start {
            rows[i].start = *limit;
            rests = false;
        }
    }
    rests
}

// The sum of start minus floor. Not by `sum`: of signed numbers a proof knows no bound of it.
pub(crate) fn sum_room(rows: &[Bench]) -> i64
    requires { length rows.now ≤ 32 }
    ensures value { result ≡ spare rows.now }
    ensures low { neg_ℤ (pos (2 ^ 37)) ≤ℤ result }
    ensures high { result ≤ℤ pos (2 ^ 37) }
{
    let mut sum = 0;
    for b in rows {
        sum += room(*b);
    }
    sum
}

// Start minus floor.
fn room(b: Bench) -> i64
    ensures value { result ≡ b.start -ℤ b.floor }
    ensures low { neg_ℤ (pos (2 ^ 32)) ≤ℤ result }
    ensures high { result ≤ℤ pos (2 ^ 32) }
{
    i64::from(b.start) - i64::from(b.floor)
}
