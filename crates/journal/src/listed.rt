// A list of starts, as the slice of those that it holds.
ghost use Rattle.std.specs.Prelude.{◌≡◌, ◌<◌, ◌≤◌, length, Some, MatchOption};
ghost use Rattle.std.specs.Ordering.{on, int_eq};
ghost use Rattle.std.specs.Cmp.{partial_equiv_from_equiv, int_eq_equiv, on_per, on_equiv};
ghost use Rattle.std.specs.Cmp.Lexicographic.{pointwise, lists_per, lists_equiv};
ghost use Rattle.std.specs.Fmt.{debug_list, signed_decimal};
ghost use Rattle.journal.specs.Starts.{starts_in};

use crate::start_list::StartList;
use std::fmt;

impl StartList {
    // These starts, or none where they are more than 32.
    pub fn new(starts: &[i32]) -> Option<StartList>
        ensures { MatchOption result (32 < length starts.now) (λ list. (starts_in list ≡ starts.now) × (length (starts_in list) ≤ 32)) }
    {
        let count = starts.len();
        if count > 32 {
            return None;
        }
        let mut places = [0; 32];
        places[..count].copy_from_slice(starts);
        Some(StartList { places, count })
    }

    // The starts.
    pub fn as_slice(&self) -> &[i32]
        ensures value { result.now ≡ starts_in self.now }
        ensures few { length result.now ≤ 32 }
    {
        &self.places[..self.count]
    }
}

// Spare places play no part: two lists are equal where their starts are.
impl PartialEq for StartList {
    ghost eq = { on starts_in (pointwise int_eq) };

    ghost laws = { on_per starts_in (lists_per (partial_equiv_from_equiv int_eq_equiv)) };

    fn eq(&self, other: &Self) -> bool {
        self.as_slice() == other.as_slice()
    }
}

impl Eq for StartList {
    ghost laws = { on_equiv starts_in (lists_equiv int_eq_equiv) };
}

// Printed as the list of its starts.
impl fmt::Debug for StartList {
    ghost debug_output = { λ s. debug_list (λ z. Some (signed_decimal z)) (starts_in s) };

    fn fmt<W: fmt::Write>(&self, f: &mut fmt::Formatter<W>) -> fmt::Result {
        fmt::Debug::fmt(&self.as_slice(), f)
    }
}
