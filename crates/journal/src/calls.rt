// A call on a plan, with its arguments.
use model::{Place, Window};

#[derive(Drop)]
pub enum Call<L, R> {
    Lower { place: Place, ceiling: i32 },
    Raise { place: Place, floor: i32 },
    Loosen { place: Place, window: Window },
    // One a side, since the two networks may be of different types.
    ExchangeLeft(L),
    ExchangeRight(R),
    Advance(u64),
    Adopt,
    ReadState,
    ReadSlack,
    ReadWindow(Place),
    // Into two lists of these lengths.
    ReadStarts { lefts: usize, rights: usize },
}
