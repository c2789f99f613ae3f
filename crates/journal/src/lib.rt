// Whole lists of calls on a plan.
#![tactic(auto)]

mod calls;
mod carrying;
mod entries;
mod listed;
mod replaying;
mod replies;
mod room;
mod start_list;
mod unstarted;

pub use calls::Call;
pub use carrying::carry_out;
pub use entries::Journal;
pub use replaying::replay;
pub use replies::{Reply, Starts};
pub use start_list::StartList;
pub use unstarted::Unstarted;
