// Plan files.
ghost use Rattle.std.specs.Prelude.{◌≡◌, length};
ghost use Rattle.planfile.specs.Sound.{plain};
ghost use Rattle.planfile.specs.Answers.{BodyRead, PlanRead, FileLaw};

use crate::body::read_body;
use crate::contents::Contents;
use crate::head::read_head_part;
use crate::heads::{ScaleKind, SoundHead};
use crate::plans::PlanFile;
use crate::ranges::Ranges;
use crate::tables::contents;
use layout::{Cursor, FileFault};
use scale::Scale;

// The plan of a file, or its first fault.
pub fn read_plan(file: &[u8]) -> Result<PlanFile, FileFault>
    ensures reads { PlanRead file.now result }
    ensures law { FileLaw file.now result }
{
    let head = read_head_part(file)?;
    let mut cursor = Cursor { bytes: file, at: 5 };
    match head.scale {
        ScaleKind::Minutes => read_contents(&mut cursor, head).map(PlanFile::Minutes),
        ScaleKind::Grades => read_contents(&mut cursor, head).map(PlanFile::Grades),
    }
}

// The contents of a file with this head, from the cursor on, over its scale.
fn read_contents<S: Scale>(cursor: &mut Cursor, head: SoundHead) -> Result<Contents<S>, FileFault>
    ensures { BodyRead S.Scale.algebra cursor.old.bytes.now cursor.old.at (plain head) result }
{
    let lists = read_body(cursor, head, Ranges::of::<S>())?;
    Ok(contents(lists))
}
