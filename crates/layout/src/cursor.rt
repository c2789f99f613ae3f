// The place up to which a file is read.
ghost use Rattle.std.specs.Prelude.{◌≤◌, length};

// The bytes of a file, read up to an offset.
#[derive(Drop)]
pub struct Cursor<'a> {
    pub bytes: &'a [u8],
    pub at: usize,
    ghost within: { at ≤ length bytes.now },
}
