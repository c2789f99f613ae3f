// Fields of one and of four bytes.
ghost use Rattle.std.specs.Prelude.{◌≡◌, ◌+◌, ◌*◌, ◌<◌, ◌≤◌, length, MatchOption, slice_index};
ghost use Rattle.layout.specs.Faults.{fault};
ghost use Rattle.layout.specs.Layouts.{number};
ghost use Rattle.layout.specs.Reading.{Reads};
ghost use Rattle.network.specs.declared.refusal.Refusal.TheVariants.{Ends};

use crate::cursor::Cursor;
use crate::faults::ByteFault;
use network::Refusal;

impl<'a> Cursor<'a> {
    // The next byte.
    #[tactic(auto, unfolding(crate::specs::Layouts::reads, crate::specs::Layouts::number, crate::specs::Layouts::value))]
    pub fn byte(&mut self) -> Result<u8, ByteFault>
        ensures { Reads (number 1) self.old self.new (λ v. v) result }
    {
        let Some(v) = byte_at(self.bytes, self.at) else {
            return Err(self.ends());
        };
        self.at += 1;
        Ok(v)
    }

    // The next four bytes as a number, the first byte worth most.
    #[tactic(auto, unfolding(crate::specs::Layouts::reads, crate::specs::Layouts::number, crate::specs::Layouts::value))]
    pub fn word(&mut self) -> Result<u32, ByteFault>
        ensures { Reads (number 4) self.old self.new (λ v. v) result }
    {
        let [a, b, c, d, ..] = &self.bytes[self.at..] else {
            return Err(self.ends());
        };
        let v = joined(*a, *b, *c, *d);
        self.at += 4;
        Ok(v)
    }

    // The fault of a field that the file does not hold whole: 1.
    fn ends(&self) -> ByteFault
        ensures { result ≡ fault Ends self.now.at }
    {
        ByteFault {
            refusal: Refusal::Ends,
            byte: self.at,
        }
    }
}

// The byte at an offset, none past the end. The library's method, under a clause by offsets.
fn byte_at(bytes: &[u8], at: usize) -> Option<u8>
    ensures { MatchOption result (length bytes.now ≤ at) (λ v. (at < length bytes.now) × (v ≡ slice_index bytes.now at)) }
{
    bytes.get(at).copied()
}

// Four bytes as a number, the first worth most.
fn joined(a: u8, b: u8, c: u8, d: u8) -> u32
    ensures { result ≡ ((a * 256 + b) * 256 + c) * 256 + d }
{
    u32::from_be_bytes([a, b, c, d])
}
