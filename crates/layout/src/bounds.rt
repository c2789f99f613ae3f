// Bounds of a number.
ghost use Rattle.std.specs.Prelude.{◌≡◌};
ghost use Rattle.layout.specs.Numbers.{within};

// The least and the greatest number that a field may have.
#[derive(Clone, Copy, Debug, PartialEq, Eq)]
pub struct Bounds {
    pub least: i32,
    pub greatest: i32,
}

impl Bounds {
    // Whether the number is within the bounds.
    pub fn contains(self, v: i32) -> bool
        ensures { result ≡ within self v }
    {
        (self.least..=self.greatest).contains(&v)
    }
}
