// The lines of a report.
ghost use Rattle.std.specs.Prelude.{◌≡◌};
ghost use Rattle.report.specs.Reports.{report_line};

use crate::faults::SheetFault;
use rules::{Answers, RefusalCode};

/// A line of a report: a line of the sheet by its number, accepted with its answers or refused, or a member at the
/// end. A sheet that is refused whole has number 0.
#[derive(Clone, Copy, Debug, PartialEq, Eq)]
pub enum ReportLine {
    Accepted {
        line: u64,
        answers: Answers,
    },
    Refused {
        line: u64,
        code: RefusalCode,
    },
    Member {
        member: u64,
        position: u64,
        clearing: u64,
        free_position: i64,
        free_clearing: i64,
    },
}

/// The report's line for a line of the sheet: its answers, or its fault.
pub(crate) fn report_line(line: u64, answers: Result<Answers, SheetFault>) -> ReportLine
    ensures { result ≡ report_line line answers }
{
    match answers {
        Ok(answers) => ReportLine::Accepted { line, answers },
        Err(fault) => ReportLine::Refused {
            line,
            code: fault.code(),
        },
    }
}
