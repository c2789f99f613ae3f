// A bench's window, and its record.
ghost use Rattle.std.specs.Prelude.{◌≡◌};
ghost use Rattle.model.specs.Sheets.{window, fresh_bench};
ghost use Rattle.model.specs.Calls.{lower_bench, raise_bench, adopt_bench};

// The floor and the ceiling of a bench.
#[derive(Clone, Copy, Debug, Default, PartialEq, Eq)]
pub struct Window {
    pub floor: i32,
    pub ceiling: i32,
}

// The record of a bench.
#[derive(Clone, Copy, Debug, Default, PartialEq, Eq)]
pub struct Bench {
    pub floor: i32,
    pub ceiling: i32,
    pub start: i32,
}

impl From<Bench> for Window {
    ghost from_gives = { λ b w. w ≡ window b };

    fn from(b: Bench) -> Window {
        Window {
            floor: b.floor,
            ceiling: b.ceiling,
        }
    }
}

// At a fresh start: the start is the ceiling.
impl From<Window> for Bench {
    ghost from_gives = { λ w b. b ≡ fresh_bench w };

    fn from(w: Window) -> Bench {
        Bench {
            floor: w.floor,
            ceiling: w.ceiling,
            start: w.ceiling,
        }
    }
}

impl Bench {
    // The record with another ceiling; a start above it falls to it.
    pub fn lowered(self, ceiling: i32) -> Bench
        ensures { result ≡ lower_bench ceiling self }
    {
        Bench {
            ceiling,
            start: self.start.min(ceiling),
            ..self
        }
    }

    // The record with another floor.
    pub fn raised(self, floor: i32) -> Bench
        ensures { result ≡ raise_bench floor self }
    {
        Bench { floor, ..self }
    }

    // The record with its start as ceiling.
    pub fn adopted(self) -> Bench
        ensures { result ≡ adopt_bench self }
    {
        Bench {
            ceiling: self.start,
            ..self
        }
    }
}
