// Plan files of edition 1.
#![tactic(auto)]

mod asked;
mod asking;
mod body;
mod contents;
mod files;
mod head;
mod heads;
mod laws;
mod listed;
mod lists;
mod maps;
mod parts;
mod plans;
mod ranges;
mod reader;
mod rows;
mod sizes;
mod spans;
mod tables;
mod windows;

pub use asked::{Reader, Row, RowPlace};
pub use contents::Contents;
pub use files::read_plan;
pub use heads::{Head, ScaleKind};
pub use laws::plan_files_stand;
pub use plans::PlanFile;
pub use spans::Windows;
