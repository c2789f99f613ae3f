// A number of four bytes within bounds.
ghost use Rattle.std.specs.Prelude.{◌≡◌};
ghost use Rattle.layout.specs.Numbers.{number_in, decided, signed};
ghost use Rattle.layout.specs.Reading.{Reads};

use crate::bounds::Bounds;
use crate::cursor::Cursor;
use crate::faults::ByteFault;
use network::Refusal;

// The next four bytes in two's complement; where the number is out of bounds, the refusal at its first byte.
pub fn read_number(cursor: &mut Cursor, bounds: Bounds, refusal: Refusal) -> Result<i32, ByteFault>
    ensures { Reads (number_in bounds refusal) cursor.old cursor.new (λ v. v) result }
{
    let byte = cursor.at;
    let word = cursor.word()?;
    within(signed(word), bounds, refusal, byte)
}

// The number whose two's complement these bits are. The library's method, under the definition's name.
fn signed(word: u32) -> i32
    ensures { result ≡ signed word }
{
    word.cast_signed()
}

// The number, or the refusal where it is out of bounds.
fn within(v: i32, bounds: Bounds, refusal: Refusal, byte: usize) -> Result<i32, ByteFault>
    ensures { result ≡ decided bounds refusal byte v }
{
    if bounds.contains(v) {
        Ok(v)
    } else {
        Err(ByteFault { refusal, byte })
    }
}
