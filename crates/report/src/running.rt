// Runs the lines of a sheet that is ready.
ghost use Rattle.std.specs.Prelude.{◌≡◌, ◌+◌, ◌≤◌, true, length};
ghost use Rattle.rules.specs.Limits.{trading};
ghost use Rattle.book.specs.SectionBook.{book_of};
ghost use Rattle.book.specs.Views.{keepers_of, seen};
ghost use Rattle.sheet.specs.Cursors.{lines_left};
ghost use Rattle.sheet.specs.Lines.{read_line};
ghost use Rattle.report.specs.Parsed.{call_line, timely};
ghost use Rattle.report.specs.Reports.{answers_of};
ghost use Rattle.report.specs.Runs.{BookRun, HasRoom, LineRun, LinesRun};

use crate::faults::SheetFault;
use crate::members::report_members;
use crate::writing::Report;
use book::{BookView, SectionBook};
use charge::ChargeRule;
use keeper::Keeper;
use rules::{Answer, Answers, Call, Request, Response};
use section::Section;
use sheet::{Line, Lines, read_line};

/// The call that a line makes once the book is open: a row is then late.
#[inline(always)]
fn read_call(line: &[u8]) -> Result<Call, SheetFault>
    ensures { call_line result ≡ timely true (read_line line.now) }
{
    match read_line(line)? {
        Line::Call(call) => Ok(call),
        Line::Instrument(_) => Err(SheetFault::Misplaced),
    }
}

/// A call's answers, or its fault.
fn answers(response: Response) -> Result<Answers, SheetFault>
    ensures { result ≡ answers_of response }
{
    match response? {
        Answer::Accepted(answers) => Ok(answers),
        Answer::Replied(_) => Ok(Answers::from(0)),
    }
}

/// Makes a line's call to an open book.
// In place: a book that is moved from line to line takes longer.
fn run_line<M: Keeper, G: Keeper, R: ChargeRule>(
    book: &mut SectionBook<M, G, R>,
    line: &[u8],
) -> Result<Answers, SheetFault>
    ensures { LineRun ⟦<SectionBook<M, G, R> as BookView>⟧ book.old
        (timely true (read_line line.now)) result book.new }
{
    let call = read_call(line)?;
    answers(book.take(Request::Make(call)))
}

/// Runs the lines of a sheet from the one that opens the book on, and reports on them.
fn run_lines<M: Keeper, G: Keeper, R: ChargeRule>(
    book: &mut SectionBook<M, G, R>,
    lines: Lines<'_>,
    report: &mut Report,
)
    requires few { report.old.lines + length (lines_left lines) ≤ 65537 }
    requires room { HasRoom report.old (length (lines_left lines) + 64) }
    ensures run { LinesRun M.Registers G.Registers
        (⟦<SectionBook<M, G, R> as BookView>⟧.snapshot book.old) (keepers_of (book_of book.old))
        (lines_left lines.entry) report.old report.new
        (⟦<SectionBook<M, G, R> as BookView>⟧.snapshot book.new) (keepers_of (book_of book.new)) }
    ensures room { HasRoom report.new 64 }
{
    for line in lines {
        report.add_answers(run_line(book, line));
    }
}

/// Runs the lines of a sheet from the one that opens the book on, and reports on them and, if there is any, on the
/// members.
fn run_book<M: Keeper, G: Keeper, R: ChargeRule>(
    book: &mut SectionBook<M, G, R>,
    lines: Lines<'_>,
    report: &mut Report,
)
    requires few { report.old.lines + length (lines_left lines) ≤ 65537 }
    requires room { HasRoom report.old (length (lines_left lines) + 64) }
    ensures { BookRun M.Registers G.Registers
        (⟦<SectionBook<M, G, R> as BookView>⟧.snapshot book.old) (keepers_of (book_of book.old))
        (lines_left lines.entry) report.old report.new (keepers_of (book_of book.new)) }
{
    run_lines(book, lines, report);
    if !lines.is_empty() {
        report_members(book, report);
    }
}

/// The keepers after a run.
#[derive(Drop)]
pub(crate) struct Finished<M, G> {
    pub(crate) money: M,
    pub(crate) goods: G,
}

/// Opens the book of a section and runs it to its end.
// A function of its own that takes the keepers by value: a book owns memory, and where one stood beside a `&mut` to a
// keeper, nothing would be known of the keeper afterwards.
pub(crate) fn run_section<M: Keeper + Drop, G: Keeper + Drop, R: ChargeRule + Drop>(
    section: Section,
    money: M,
    goods: G,
    rule: R,
    lines: Lines<'_>,
    report: &mut Report,
) -> Finished<M, G>
    requires few { report.old.lines + length (lines_left lines) ≤ 65537 }
    requires room { HasRoom report.old (length (lines_left lines) + 64) }
    ensures { BookRun M.Registers G.Registers
        (seen trading M.Registers G.Registers R.ChargeRule section money goods rule)
        (record { money = money; goods = goods })
        (lines_left lines.entry) report.old report.new
        (record { money = result.money; goods = result.goods }) }
{
    let mut book = SectionBook::new(section, money, goods, rule);
    run_book(&mut book, lines, report);
    let (money, goods, _rule) = book.into_parts();
    Finished { money, goods }
}
