// A plan over two networks of one scale, and the calls on it.
#![tactic(auto)]

mod advancing;
mod exchanged;
mod exchanges;
mod founding;
mod founds;
mod places;
mod plan;
mod readings;
mod rounds;
mod windows;

pub use exchanged::Unexchanged;
pub use founding::Unfounded;
pub use plan::Plan;
