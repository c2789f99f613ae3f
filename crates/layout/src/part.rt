// The parts of a file.
ghost use Rattle.std.specs.Prelude.{◌≡◌};
ghost use Rattle.layout.specs.Numbering.{part_number};

#[derive(Clone, Copy, Debug, PartialEq, Eq)]
pub enum Part {
    Head = 0,
    LeftNetwork = 1,
    RightNetwork = 2,
    LeftWindows = 3,
    RightWindows = 4,
    // Bytes after the end of the file.
    Extra = 5,
}

impl Part {
    // The number by which a part is known: a method of that name, as for a refusal.
    pub fn number(self) -> u8
        ensures { result ≡ part_number self }
    {
        self as u8
    }
}
