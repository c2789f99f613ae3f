// A list of windows, as the slice of those that it holds.
ghost use Rattle.std.specs.Prelude.{◌≡◌, ◌<◌, ◌≤◌, [], ◌∷◌, ◌++◌, length};
ghost use Rattle.std.proofs.Common.{rules};
ghost use Rattle.std.specs.Cmp.Lexicographic.{pointwise};
ghost use Rattle.std.specs.Cmp.Rules.{comparing};
ghost use Rattle.std.specs.Ordering.{on, int_eq, eq_of_both};
ghost use Rattle.planfile.specs.Handed.{windows_in};

use crate::spans::Windows;
use model::Window;
use std::fmt;

impl Windows {
    // No window.
    pub(crate) fn new() -> Windows
        ensures { windows_in result ≡ [] }
    {
        Windows {
            list: [Window::default(); 32],
            count: 0,
        }
    }

    // One window more.
    pub(crate) fn push(&mut self, w: Window)
        requires { length (windows_in self.old) < 32 }
        ensures { windows_in self.new ≡ windows_in self.old ++ w ∷ [] }
    {
        self.list[self.count] = w;
        self.count += 1;
    }

    // The windows, bench 0 first.
    pub fn as_slice(&self) -> &[Window]
        ensures windows { result.now ≡ windows_in self.now }
        ensures few { length result.now ≤ 32 }
    {
        &self.list[..self.count]
    }
}

// Spare places play no part: two lists are equal where their windows are.
impl PartialEq for Windows {
    ghost eq = { on windows_in (pointwise (eq_of_both (on (λ w. w.floor) int_eq) (on (λ w. w.ceiling) int_eq))) };

    ghost laws = { Prim.search (comparing, rules) depth 9 };

    fn eq(&self, other: &Windows) -> bool {
        self.as_slice() == other.as_slice()
    }
}

impl Eq for Windows {
    ghost laws = { Prim.search (comparing, rules) };
}

// As a derive would print a field that holds the windows alone.
impl fmt::Debug for Windows {
    fn fmt<W: fmt::Write>(&self, f: &mut fmt::Formatter<W>) -> fmt::Result {
        f.debug_struct("Windows")
            .field("list", &self.as_slice())
            .finish()
    }
}
