// A network that was not taken into a plan.
use network::Refusal;

// Why, and the network that was offered.
#[derive(Drop)]
pub struct Unexchanged<N> {
    pub refusal: Refusal,
    pub network: N,
}
