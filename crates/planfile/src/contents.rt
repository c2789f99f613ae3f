// What a plan file hands over, ready for founding.
use crate::spans::Windows;
use table::Table;

// Two tables of one scale, and the windows of both sides.
#[derive(Drop)]
pub struct Contents<S> {
    pub left: Table<S>,
    pub right: Table<S>,
    pub lefts: Windows,
    pub rights: Windows,
}
