// The head of a plan file: five bytes.
ghost use Rattle.std.specs.Prelude.{◌≡◌, ◌≤◌, length, IfOk, IsTrue, OnOk, Err};
ghost use Rattle.layout.specs.Faults.{fault};
ghost use Rattle.layout.specs.Layouts.{reached, reads};
ghost use Rattle.layout.specs.Reading.{outcome};
ghost use Rattle.planfile.specs.Heads.{head_of, head_part, one_to, kind};
ghost use Rattle.planfile.specs.Sound.{plain};

use crate::heads::{Head, ScaleKind, SoundHead};
use crate::sizes::Count;
use layout::{ByteFault, FileFault, Part, in_part, on_line};
use network::Refusal;

impl From<SoundHead> for Head {
    ghost from_gives = { λ s h. h ≡ plain s };

    fn from(s: SoundHead) -> Head {
        Head {
            scale: s.scale,
            stations: s.stations.number,
            left: s.left.number,
            right: s.right.number,
        }
    }
}

// The head of a file, with a fault on its line and in its part.
pub(crate) fn read_head_part(file: &[u8]) -> Result<SoundHead, FileFault>
    ensures reads { outcome plain result 5 ≡ reads head_part file.now 0 }
    ensures whole { OnOk result (5 ≤ length file.now) }
    ensures accepted { IfOk result (λ h. reads head_of file.now 0 ≡ reached (plain h) 5) }
{
    in_part(on_line(read_head(file), 0), Part::Head)
}

// The head of a file, whose bytes are checked in their order.
fn read_head(file: &[u8]) -> Result<SoundHead, ByteFault>
    ensures reads { outcome plain result 5 ≡ reads head_of file.now 0 }
    ensures whole { OnOk result (5 ≤ length file.now) }
{
    match file {
        [edition, ..] if !one_to(1, *edition) => fault(Refusal::Edition, 0),
        [_, scale, ..] if !one_to(2, *scale) => fault(Refusal::UnknownScale, 1),
        [_, _, stations, ..] if !one_to(32, *stations) => fault(Refusal::Size, 2),
        [_, _, _, left, ..] if !one_to(32, *left) => fault(Refusal::Size, 3),
        [_, _, _, _, right, ..] if !one_to(32, *right) => fault(Refusal::Size, 4),
        [_edition, scale, stations, left, right, _rest @ ..] => Ok(SoundHead {
            scale: kind(*scale),
            stations: count(*stations),
            left: count(*left),
            right: count(*right),
        }),
        _ => fault(Refusal::Ends, file.len()),
    }
}

fn fault(refusal: Refusal, byte: usize) -> Result<SoundHead, ByteFault>
    ensures { result ≡ Err (fault refusal byte) }
{
    Err(ByteFault { refusal, byte })
}

// Whether v is one of 1 to n.
fn one_to(n: u8, v: u8) -> bool
    ensures { result ≡ one_to n v }
{
    (1..=n).contains(&v)
}

// The scale of a scale byte: 1 minutes, 2 fit grades. Not `TryFrom`: the byte is checked in its turn, so a refusal here would be
// no plainer.
fn kind(scale: u8) -> ScaleKind
    ensures { result ≡ kind scale }
{
    match scale {
        1 => ScaleKind::Minutes,
        _ => ScaleKind::Grades,
    }
}

// A size, from its byte.
fn count(size: u8) -> Count
    requires { IsTrue (one_to 32 size) }
    ensures { result.number ≡ size }
{
    Count {
        number: usize::from(size),
    }
}
