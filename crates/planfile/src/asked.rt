// Rows of a file that are asked for.
ghost use Rattle.std.specs.Prelude.{◌≤◌, length};

use crate::heads::SoundHead;
use layout::Part;

// Where a row stands in the file's order: its network, its station, and its benches.
#[derive(Clone, Copy, Debug, PartialEq, Eq)]
pub struct RowPlace {
    pub part: Part,
    pub line: usize,
    pub benches: usize,
}

// A row as a part of the file: its place, the offset of its map, its map, and the bytes of its coefficients.
#[derive(Clone, Copy, Debug, PartialEq, Eq)]
pub struct Row<'a> {
    pub place: RowPlace,
    pub byte: usize,
    pub map: u32,
    pub fields: &'a [u8],
}

// A reader over the bytes of a file. After its head was accepted, `passed` rows were handed out, and the next begins at `at`.
#[derive(Drop)]
pub struct Reader<'a> {
    pub(crate) bytes: &'a [u8],
    pub(crate) at: usize,
    pub(crate) head: Option<SoundHead>,
    pub(crate) passed: usize,
    ghost within: { at ≤ length bytes.now },
}
