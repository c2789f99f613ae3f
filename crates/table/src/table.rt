// A table of coefficients.
ghost use Rattle.std.specs.Prelude.{◌≡◌, ◌*◌, length};
ghost use Rattle.network.specs.Networks.{Size};

use arrayvec::ArrayVec;
use std::marker::PhantomData;

// The most cells of a table: 32 stations and 32 benches.
pub(crate) const MOST: usize = 1024;

// One coefficient, or none, for each station and bench. The cells stand row after row, each as a number that stands for the
// coefficient or for none: over options of 8 bytes the arrivals took half again as long.
#[derive(Drop)]
pub struct Table<S> {
    pub(crate) stations: usize,
    pub(crate) benches: usize,
    pub(crate) cells: ArrayVec<i32, MOST>,
    pub(crate) scale: PhantomData<S>,
    ghost sized_stations: { Size stations },
    ghost sized_benches: { Size benches },
    ghost one_each: { length cells.items ≡ stations * benches },
}
