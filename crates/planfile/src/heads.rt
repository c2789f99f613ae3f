// What the head of a plan file says.
use crate::sizes::Count;

// The scales that a plan file can have.
#[derive(Clone, Copy, Debug, PartialEq, Eq)]
pub enum ScaleKind {
    Minutes,
    Grades,
}

// The scale of a plan, its stations, and the benches of each side.
#[derive(Clone, Copy, Debug, PartialEq, Eq)]
pub struct Head {
    pub scale: ScaleKind,
    pub stations: usize,
    pub left: usize,
    pub right: usize,
}

// The same, of a head that is accepted: each size is one of 1 to 32.
#[derive(Clone, Copy)]
pub(crate) struct SoundHead {
    pub(crate) scale: ScaleKind,
    pub(crate) stations: Count,
    pub(crate) left: Count,
    pub(crate) right: Count,
}
