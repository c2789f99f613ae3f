// A fault that passes up from the bytes gets its line, and then its part: by methods and not `From`, since each takes a place.
ghost use Rattle.std.specs.Prelude.{◌≡◌};
ghost use Rattle.std.specs.Result.{result_map_both};
ghost use Rattle.layout.specs.Faults.{on_line, in_part};

use crate::faults::{ByteFault, FileFault, LineFault};

impl ByteFault {
    // The same fault, on its line.
    pub fn on_line(self, line: usize) -> LineFault
        ensures { result ≡ on_line line self }
    {
        LineFault {
            refusal: self.refusal,
            line,
            byte: self.byte,
        }
    }
}

impl LineFault {
    // The same fault, in its part.
    pub fn in_part<P>(self, part: P) -> FileFault<P>
        ensures { result ≡ in_part part self }
    {
        FileFault {
            refusal: self.refusal,
            part,
            line: self.line,
            byte: self.byte,
        }
    }
}

// The same answer, with a fault on its line.
pub fn on_line<T>(r: Result<T, ByteFault>, line: usize) -> Result<T, LineFault>
    ensures { result ≡ result_map_both (λ v. v) (on_line line) r }
{
    r.map_err(move |f| f.on_line(line))
}

// The same answer, with a fault in its part.
pub fn in_part<T, P: Drop>(r: Result<T, LineFault>, part: P) -> Result<T, FileFault<P>>
    ensures { result ≡ result_map_both (λ v. v) (in_part part) r }
{
    r.map_err(move |f| f.in_part(part))
}
