// A plan.
ghost use Rattle.std.specs.Prelude.{◌≡◌};

use benches::Hall;
use model::State;
use network::Network;

// A left and a right hall over one scale, with equal numbers of stations.
#[derive(Drop)]
pub struct Plan<L: Network, R: Network<Over = L::Over>> {
    pub(crate) left: Hall<L>,
    pub(crate) right: Hall<R>,
    pub(crate) state: State,
    ghost level: { (L.Network.meaning left.network).stations ≡ (R.Network.meaning right.network).stations },
}
