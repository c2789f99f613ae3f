// Layouts of files: fields one after another, and a cursor that reads them.
#![tactic(auto)]

mod bounds;
mod bytes;
mod cursor;
mod faults;
mod numbers;
mod part;
mod places;

pub use bounds::Bounds;
pub use cursor::Cursor;
pub use faults::{ByteFault, FileFault, LineFault};
pub use numbers::read_number;
pub use part::Part;
pub use places::{in_part, on_line};
