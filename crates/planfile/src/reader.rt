// Asking for rows in the file's order.
ghost use Rattle.std.specs.Prelude.{◌≡◌};
ghost use Rattle.planfile.specs.Rowing.{next_row, next_place, Opened, Accepted, Asked};

use crate::asked::{Reader, Row, RowPlace};
use crate::asking::pass_row;
use crate::head::read_head_part;
use crate::heads::Head;
use layout::{Cursor, FileFault, Part};

impl<'a> Reader<'a> {
    // A reader over a file. It has no row to hand out until the head is accepted.
    pub fn new(file: &'a [u8]) -> Reader<'a>
        ensures { Opened file.now result }
    {
        Reader {
            bytes: file,
            at: 0,
            head: None,
            passed: 0,
        }
    }

    // Reads the head, and goes to the first row. A refusal leaves the reader as it was.
    pub fn accept_head(&mut self) -> Result<Head, FileFault>
        ensures { Accepted self.old self.new result }
    {
        let head = read_head_part(self.bytes)?;
        self.head = Some(head);
        self.at = 5;
        self.passed = 0;
        Ok(Head::from(head))
    }

    // The next row, none after the last one: 1, 5. A refusal leaves the reader as it was.
    pub fn ask(&mut self) -> Result<Option<Row<'a>>, FileFault>
        ensures { Asked self.old self.new result }
    {
        let Some(place) = self.next_place() else {
            return Ok(None);
        };
        let mut cursor = Cursor {
            bytes: self.bytes,
            at: self.at,
        };
        let map = pass_row(&mut cursor, place.benches).map_err(|f| f
            .on_line(place.line)
            .in_part(place.part))?;
        let byte = self.at;
        let fields = &self.bytes[byte + 4..cursor.at];
        self.at = cursor.at;
        self.passed += 1;
        Ok(Some(Row {
            place,
            byte,
            map,
            fields,
        }))
    }

    // The place of the next row.
    fn next_place(&self) -> Option<RowPlace>
        ensures { result ≡ next_place self.now }
    {
        let head = Head::from(self.head?);
        next_row(head, self.passed)
    }
}

// The place of the row after `passed` rows.
fn next_row(head: Head, passed: usize) -> Option<RowPlace>
    ensures { result ≡ next_row head passed }
{
    if passed < head.stations {
        Some(RowPlace {
            part: Part::LeftNetwork,
            line: passed,
            benches: head.left,
        })
    } else if passed - head.stations < head.stations {
        Some(RowPlace {
            part: Part::RightNetwork,
            line: passed - head.stations,
            benches: head.right,
        })
    } else {
        None
    }
}
