// What a plan file holds.
use crate::contents::Contents;
use scale::{Grades, Minutes};

// The tables and windows of a plan, by its scale.
#[derive(Drop)]
pub enum PlanFile {
    Minutes(Contents<Minutes>),
    Grades(Contents<Grades>),
}
