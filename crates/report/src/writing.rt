// A report as it is written.
ghost use Rattle.std.specs.Prelude.{◌≡◌, ℕ, ◌+◌, ◌<◌, ◌≤◌, IfOk};
ghost use Rattle.report.specs.Reports.{report_line};
ghost use Rattle.report.specs.Texts.{line_text};

use crate::faults::SheetFault;
use crate::lines::{ReportLine, report_line};
use crate::texts::{LINE_BYTES, LineText};
use rules::Answers;
use std::alloc::{AllocError, Global};

/// The most bytes of a line, with its feed.
const MAX_LINE: usize = LINE_BYTES + 1;

/// A report as it is written: its text, and how many lines of the sheet it reports on.
#[derive(Drop)]
pub(crate) struct Report {
    text: String,
    lines: u64,
}

impl Report {
    ghost use Rattle.std.specs.Prelude.{[], string_bytes};
    ghost use Rattle.report.specs.Runs.{Adds, HasRoom, text_of};

    /// Nothing is reported, and there is room for so many lines: no later one wants memory.
    pub(crate) fn with_room(heap: Global, lines: usize) -> Result<Report, AllocError>
        requires { lines ≤ 131072 }
        ensures text { IfOk result (λ r. text_of r ≡ []) }
        ensures lines { IfOk result (λ r. r.lines ≡ 0) }
        ensures room { IfOk result (λ r. HasRoom r lines) }
    {
        Ok(Report {
            text: String::with_capacity(heap, lines * MAX_LINE)?,
            lines: 0,
        })
    }

    /// Adds a line, with its feed.
    // Not by `writeln!`, which takes 60 instructions more.
    pub(crate) fn add(&mut self, line: &ReportLine)
        requires { HasRoom self.old 1 }
        ensures text { Adds (text_of self.old) (line_text line.now) (text_of self.new) }
        ensures lines { self.new.lines ≡ self.old.lines }
        ensures room { (n : ℕ) → HasRoom self.old (n + 1) → HasRoom self.new n }
    {
        let mut bytes = LineText::new();
        line.write_to(&mut bytes);
        let _ = self.text.push_str(bytes.as_str());
        let _ = self.text.push('\n');
    }

    /// Reports on the next line of the sheet: its answers, or its fault.
    pub(crate) fn add_answers(&mut self, answers: Result<Answers, SheetFault>)
        requires lines { self.old.lines < 65537 }
        requires room { HasRoom self.old 1 }
        ensures text { Adds (text_of self.old) (line_text (report_line (self.old.lines + 1) answers))
            (text_of self.new) }
        ensures lines { self.new.lines ≡ self.old.lines + 1 }
        ensures room { (n : ℕ) → HasRoom self.old (n + 1) → HasRoom self.new n }
    {
        self.lines += 1;
        self.add(&report_line(self.lines, answers));
    }

    /// The text of the report.
    pub(crate) fn into_text(self) -> String
        ensures { string_bytes result ≡ text_of self }
    {
        let Report { text, .. } = self;
        text
    }
}
