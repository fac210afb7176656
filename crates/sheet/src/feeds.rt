// The lines of a sheet, one after the other.
ghost use Rattle.std.specs.Prelude.{◌≡◌, ◌+◌, ◌≤◌, length, [], IfNone, IfSome, IsTrue, ◌↔◌};
ghost use Rattle.std.specs.Iterator.{YieldsFirstRef, item_count};
ghost use Rattle.sheet.specs.Cursors.{lines_left};
ghost use Rattle.sheet.specs.Rows.{NoRow, TakesRow};
ghost use Rattle.sheet.specs.Sheets.{lines_of, LinesLaw};

use crate::cutting::cut;
use crate::faults::LineFault;
use crate::reading::read_row;
use rules::Row;

/// The lines of a sheet that are still to come. A feed ends a line; text after the last feed is a line if it is not
/// empty.
#[derive(Clone, Copy)]
pub struct Lines<'a> {
    left: &'a [u8],
}

impl<'a> Lines<'a> {
    /// The lines of a whole sheet.
    pub fn of(sheet: &'a [u8]) -> Lines<'a>
        ensures all { lines_left result ≡ lines_of sheet.now }
        ensures few { length (lines_of sheet.now) ≤ length sheet.now + 1 }
        ensures law { LinesLaw }
    {
        Lines { left: sheet }
    }

    /// Whether no line is left.
    pub fn is_empty(&self) -> bool
        ensures { IsTrue result ↔ (lines_left self.now ≡ []) }
    {
        self.left.is_empty()
    }

    /// A sheet has no more lines than this: one for each feed, and one more.
    pub fn most(sheet: &[u8]) -> usize
        ensures lines { length (lines_of sheet.now) ≤ result }
        ensures bytes { result ≤ length sheet.now + 1 }
    {
        // A loop takes four instructions for a byte, `filter` and `count` seven.
        let mut feeds = 0;
        for byte in sheet {
            feeds += (*byte == b'\n') as usize;
        }
        1 + feeds
    }

    /// Takes the next line and reads it as a row, if its first field is INS. Any other line stays.
    pub fn next_row(&mut self) -> Option<Result<Row, LineFault>>
        ensures row { IfSome result (λ r. TakesRow (lines_left self.old) r (lines_left self.new)) }
        ensures other { IfNone result (NoRow (lines_left self.old)) }
        ensures stays { IfNone result (self.new ≡ self.old) }
    {
        let mut ahead = *self;
        let row = read_row(ahead.next()?)?;
        *self = ahead;
        Some(row)
    }
}

/// The lines come without their feeds.
impl<'a> Iterator for Lines<'a> {
    type Item = &'a [u8];

    ghost next_gives = { YieldsFirstRef lines_left };

    ghost remaining = { item_count lines_left };

    fn next(&mut self) -> Option<&'a [u8]> {
        let [_, ..] = self.left else {
            return None;
        };
        let (line, after) = cut(b'\n', self.left);
        self.left = after.unwrap_or(b"");
        Some(line)
    }
}
