// Why a call is turned away.
ghost use Rattle.std.specs.Prelude.{◌≡◌, Some};
ghost use Rattle.network.specs.Refusals.{number, words};

use std::fmt;

#[derive(Clone, Copy, Debug, PartialEq, Eq)]
pub enum Refusal {
    // A file that ends inside or before a field that is due.
    Ends = 1,
    // An edition that is not known.
    Edition = 2,
    // A scale that is not known.
    UnknownScale = 3,
    // A number of stations or benches outside 1 to 32.
    Size = 4,
    // A bit of a map that stands for nothing.
    Bit = 5,
    // A coefficient that is absent or not of the scale.
    Coefficient = 6,
    // A value that is no window value of the scale.
    Window = 7,
    // A floor above its ceiling.
    Crossed = 8,
    // Bytes after the end of a file.
    Extra = 9,
    // No such side or bench.
    Place = 10,
    // A change in the wrong direction.
    Direction = 11,
    // Lengths or sizes that disagree.
    Lengths = 12,
    // The plan is impossible.
    Impossible = 13,
    // The plan is not in step.
    NotInStep = 14,
    // A buffer that is too short for a listing.
    Buffer = 15,
}

impl Refusal {
    // The number by which a refusal is known: a method of that name, since the rules speak of numbers.
    pub fn number(self) -> u8
        ensures { result ≡ number self }
    {
        self as u8
    }
}

impl fmt::Display for Refusal {
    ghost output = { λ refusal. Some (words refusal) };

    fn fmt<W: fmt::Write>(&self, f: &mut fmt::Formatter<W>) -> fmt::Result {
        f.write_str(match self {
            Refusal::Ends => "the file ends too soon",
            Refusal::Edition => "an edition that is not known",
            Refusal::UnknownScale => "a scale that is not known",
            Refusal::Size => "a number of stations or benches outside 1 to 32",
            Refusal::Bit => "a bit that stands for nothing",
            Refusal::Coefficient => "a coefficient that is absent or not of the scale",
            Refusal::Window => "a value that is no window value of the scale",
            Refusal::Crossed => "a floor above its ceiling",
            Refusal::Extra => "bytes after the end of the file",
            Refusal::Place => "no such side or bench",
            Refusal::Direction => "a change in the wrong direction",
            Refusal::Lengths => "lengths or sizes that disagree",
            Refusal::Impossible => "the plan is impossible",
            Refusal::NotInStep => "the plan is not in step",
            Refusal::Buffer => "a buffer that is too short",
        })
    }
}

impl std::error::Error for Refusal {}
