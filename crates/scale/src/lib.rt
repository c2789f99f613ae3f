// Scales: the numbers in which starts and arrivals are given, with their product and quotient.
#![tactic(auto)]

mod coefficients;
mod grades;
mod minutes;
mod scale;

pub use coefficients::{counted, held, is_in_time, is_of_scale, is_present, presence_stands};
pub use grades::Grades;
pub use minutes::Minutes;
pub use scale::Scale;
