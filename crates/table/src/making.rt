// Making a table.
ghost use Rattle.std.specs.Prelude.{◌≡◌, ℕ, ◌<◌, ◌≤◌, length, None, slice_index_or};
ghost use Rattle.scale.specs.Algebra.{counted};
ghost use Rattle.network.specs.Checks.{Makes};
ghost use Rattle.network.specs.Lists.{at};
ghost use Rattle.network.specs.Refusals.{number};
ghost use Rattle.table.specs.Cells.{asked, table_checks, Holds};

use crate::rows::ABSENT;
use crate::table::{MOST, Table};
use arrayvec::ArrayVec;
use network::Refusal;
use scale::{Scale, counted};
use std::marker::PhantomData;

impl<S: Scale> Table<S> {
    // The table of these coefficients, row after row, or 4, or 12.
    pub fn new(stations: usize, benches: usize, cells: &[Option<i32>]) -> Result<Table<S>, Refusal>
        ensures { Makes (table_checks stations benches (length cells.now)) number (Holds S.Scale.algebra stations benches cells.now) (λ _. Unit {0}) result }
    {
        if !(1..=32).contains(&stations) || !(1..=32).contains(&benches) {
            return Err(Refusal::Size);
        }
        if cells.len() != stations * benches {
            return Err(Refusal::Lengths);
        }
        Ok(Table {
            stations,
            benches,
            cells: kept_cells::<S>(cells),
            scale: PhantomData,
        })
    }
}

// The numbers that stand for the coefficients. They are written into an array first: a push a cell took a third longer.
fn kept_cells<S: Scale>(cells: &[Option<i32>]) -> ArrayVec<i32, MOST>
    requires { length cells.now ≤ 1024 }
    ensures count { length result.items ≡ length cells.now }
    ensures cells { (k : ℕ) → k < length cells.now → asked (at result.items k) ≡ counted S.Scale.algebra (slice_index_or cells.now k None) }
{
    let mut all = [ABSENT; MOST];
    for (k, a) in cells.iter().enumerate() {
        all[k] = kept::<S>(*a);
    }
    let mut numbers = ArrayVec::from(all);
    numbers.truncate(cells.len());
    numbers
}

// The number that stands for a coefficient.
fn kept<S: Scale>(a: Option<i32>) -> i32
    ensures { asked result ≡ counted S.Scale.algebra a }
{
    counted::<S>(a).unwrap_or(ABSENT)
}
