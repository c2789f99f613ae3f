// The body of a plan file: all that comes after its head.
ghost use Rattle.std.specs.Prelude.{◌≡◌, length, IfOk};
ghost use Rattle.std.specs.Result.{result_map_both};
ghost use Rattle.layout.specs.Layouts.{reads};
ghost use Rattle.layout.specs.Reading.{Reads};
ghost use Rattle.planfile.specs.Files.{body_of, closed};
ghost use Rattle.planfile.specs.Sound.{plain};
ghost use Rattle.planfile.specs.Contents.{said, ending};

use crate::heads::SoundHead;
use crate::lists::Lists;
use crate::parts::{read_rows, read_windows};
use crate::ranges::Ranges;
use layout::{Cursor, FileFault, Part, in_part};
use network::Refusal;

// The lists of a file with this head, from the cursor on, or its first fault.
pub(crate) fn read_body(
    cursor: &mut Cursor,
    head: SoundHead,
    ranges: Ranges,
) -> Result<Lists, FileFault>
    ensures reads { result_map_both said (λ f. f) result ≡ closed (length cursor.old.bytes.now) (reads (body_of ranges.coefficients ranges.windows (plain head)) cursor.old.bytes.now cursor.old.at) }
    ensures head { IfOk result (λ x. x.head ≡ head) }
{
    let lists = read_lists(cursor, head, ranges)?;
    check_end(cursor)?;
    Ok(lists)
}

// The parts after the head, one after another.
fn read_lists(cursor: &mut Cursor, head: SoundHead, ranges: Ranges) -> Result<Lists, FileFault>
    ensures reads { Reads (body_of ranges.coefficients ranges.windows (plain head)) cursor.old cursor.new said result }
    ensures head { IfOk result (λ x. x.head ≡ head) }
{
    let left = in_part(
        read_rows(cursor, head.stations, head.left, ranges.coefficients),
        Part::LeftNetwork,
    )?;
    let right = in_part(
        read_rows(cursor, head.stations, head.right, ranges.coefficients),
        Part::RightNetwork,
    )?;
    let lefts = in_part(
        read_windows(cursor, head.left, ranges.windows),
        Part::LeftWindows,
    )?;
    let rights = in_part(
        read_windows(cursor, head.right, ranges.windows),
        Part::RightWindows,
    )?;
    Ok(Lists {
        head,
        left,
        right,
        lefts,
        rights,
    })
}

// Whether the file ends at the cursor: 9.
fn check_end(cursor: &Cursor) -> Result<(), FileFault>
    ensures { result ≡ ending (length cursor.now.bytes.now) cursor.now.at }
{
    if cursor.at < cursor.bytes.len() {
        return Err(FileFault {
            refusal: Refusal::Extra,
            part: Part::Extra,
            line: 0,
            byte: cursor.at,
        });
    }
    Ok(())
}
