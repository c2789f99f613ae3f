// Tables of coefficients as networks.
#![tactic(auto)]

mod making;
mod rows;
mod table;
mod tables;

pub use table::Table;
