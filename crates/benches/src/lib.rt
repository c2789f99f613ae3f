// One side's benches: their records, the checks on their windows, and half a round.
#![tactic(auto)]

mod checks;
mod half;
mod hall;
mod listed;
mod records;
mod rows;
mod table;
mod wider;
mod windows;

pub use checks::{check_ceiling, check_floor};
pub use half::cut_by;
pub use hall::Hall;
pub use table::Benches;
pub use wider::{check_wider, check_window_values};
pub use windows::{Fault, check_windows};
