// Why a file is turned away, and where.
use crate::part::Part;
use network::Refusal;

// A fault as the bytes know it: the offset is that of the faulty field's first byte.
#[derive(Clone, Copy, Debug, PartialEq, Eq)]
pub struct ByteFault {
    pub refusal: Refusal,
    pub byte: usize,
}

// The same on a line: a station or a bench, 0 where there is none.
#[derive(Clone, Copy, Debug, PartialEq, Eq)]
pub struct LineFault {
    pub refusal: Refusal,
    pub line: usize,
    pub byte: usize,
}

// The same in a part of the file: a part of a plan file, or whatever tells the parts of another one.
#[derive(Clone, Copy, Debug, PartialEq, Eq, Drop)]
pub struct FileFault<P = Part> {
    pub refusal: Refusal,
    pub part: P,
    pub line: usize,
    pub byte: usize,
}
