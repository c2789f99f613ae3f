// One side of a plan.
ghost use Rattle.std.specs.Prelude.{◌≡◌, length};
ghost use Rattle.benches.specs.Records.{records};

use crate::table::Benches;
use network::Network;

// A network, and a record for each of its benches.
#[derive(Drop)]
pub struct Hall<N: Network> {
    pub network: N,
    pub benches: Benches,
    ghost one_each: { length (records benches) ≡ (N.Network.meaning network).benches },
}
