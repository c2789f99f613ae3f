// Networks of benches and stations over a scale.
#![tactic(auto)]

mod carriage;
mod carriages;
mod deadlines;
mod hold;
mod joining;
mod network;
mod refusal;
mod series;
mod stages;
mod straight;
mod straights;

pub use carriage::{Carriage, Uncarried};
pub use deadlines::reaches_in_time;
pub use network::Network;
pub use refusal::Refusal;
pub use series::{Series, Unjoined};
pub use straight::Straight;
