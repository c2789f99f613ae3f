// A network with one more coefficient at each station.
ghost use Rattle.std.specs.Prelude.{◌≡◌, length};

use crate::network::Network;
use crate::refusal::Refusal;
use arrayvec::ArrayVec;

// The network below, and the coefficients of its stations in their order.
#[derive(Drop)]
pub struct Carriage<N: Network> {
    pub(crate) coefficients: ArrayVec<Option<i32>, 32>,
    pub(crate) below: N,
    ghost one_each: { length coefficients.items ≡ (N.Network.meaning below).stations },
}

// A network that no carriage was made over, why, and the station whose coefficient was refused.
#[derive(Drop)]
pub struct Uncarried<N> {
    pub refusal: Refusal,
    pub station: Option<usize>,
    pub below: N,
}
