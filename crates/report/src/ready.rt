// A whole sheet: made ready, and run.
ghost use Rattle.std.specs.Prelude.{◌≡◌, ℕ, ◌+◌, ◌≤◌, List, [], ◌∷◌, length, string_bytes, IfOk, OnErr};
ghost use Rattle.rules.specs.Law.{start};
ghost use Rattle.sheet.specs.Cursors.{lines_left};
ghost use Rattle.report.specs.Parsed.{code};
ghost use Rattle.report.specs.Reports.{ReportedText};
ghost use Rattle.report.specs.Runs.{HasRoom};
ghost use Rattle.report.specs.Texts.{report_text};
ghost use Rattle.report.specs.declared.faults.SheetFault.TheVariants.{LongSheet};
ghost use Rattle.report.specs.declared.lines.ReportLine.TheVariants.{Refused};

use crate::faults::SheetFault;
use crate::lines::report_line;
use crate::members::MEMBERS;
use crate::rows::take_rows;
use crate::running::run_section;
use crate::writing::Report;
use charge::ChargeRule;
use keeper::Keeper;
use rules::MAX_SHEET_BYTES;
use section::Section;
use sheet::Lines;
use std::alloc::{AllocError, Global};

/// A sheet that is ready to be run: its rows are taken and reported, and all memory that its run wants is there.
pub(crate) struct ReadySheet<'a> {
    lines: Lines<'a>,
    section: Section,
    report: Report,
    ghost few: { report.lines + length (lines_left lines) ≤ 65537 },
    ghost room: { HasRoom report (length (lines_left lines) + 64) },
}

impl<'a> ReadySheet<'a> {
    ghost use Rattle.report.specs.Ready.{IsReady};

    /// Prepares the run of a sheet by a charge rule, before any keeper is looked at.
    pub(crate) fn prepare<R: ChargeRule>(
        heap: Global,
        sheet: &'a [u8],
        rule: &R,
    ) -> Result<ReadySheet<'a>, AllocError>
        requires { length sheet.now ≤ 65536 }
        ensures { IfOk result (λ ready. IsReady (R.top rule.now) sheet.now ready) }
    {
        let mut report = Report::with_room(heap, Lines::most(sheet) + MEMBERS)?;
        let mut lines = Lines::of(sheet);
        let rows = take_rows(heap, &mut lines, &mut report)?;
        let section = Section::open(heap, rule, rows.as_slice())?;
        Ok(ReadySheet {
            lines,
            section,
            report,
        })
    }

    /// Runs it over two keepers by the same rule, and gives the text of its report.
    pub(crate) fn run<M: Keeper, G: Keeper, R: ChargeRule + Drop>(
        self,
        money: &mut M,
        goods: &mut G,
        rule: R,
    ) -> String
        ensures { (sheet : List ℕ) → length sheet ≤ 65536 → IsReady (R.ChargeRule.top rule) sheet self.entry
            → ReportedText M.Registers G.Registers
            (λ rows. start M.Registers G.Registers R.ChargeRule rows money.old goods.old rule)
            (record { money = money.old; goods = goods.old }) sheet
            (string_bytes result) (record { money = money.new; goods = goods.new }) }
    {
        let ReadySheet {
            lines,
            section,
            mut report,
        } = self;
        run_section(section, money, goods, rule, lines, &mut report);
        report.into_text()
    }
}

/// The report of a sheet that is too long.
pub(crate) fn refuse_whole(heap: Global) -> Result<String, AllocError>
    ensures { IfOk result (λ text. string_bytes text ≡ report_text (Refused 0 (code LongSheet) ∷ [])) }
{
    let mut report = Report::with_room(heap, 1)?;
    report.add(&report_line(0, Err(SheetFault::LongSheet)));
    Ok(report.into_text())
}

/// Runs a day sheet over two keepers and a charge rule, and writes its report: on each of its lines and, if any line
/// opened the book, on the members at the end. Line by line: a report that is first kept whole takes up to a fifth
/// more instructions, and memory for each line. Where memory is wanting, no keeper is touched.
pub fn run_sheet<M: Keeper, G: Keeper, R: ChargeRule + Drop>(
    heap: Global,
    sheet: &[u8],
    money: &mut M,
    goods: &mut G,
    rule: R,
) -> Result<String, AllocError>
    ensures ok { IfOk result (λ text.
        ReportedText M.Registers G.Registers
        (λ rows. start M.Registers G.Registers R.ChargeRule rows money.old goods.old rule)
        (record { money = money.old; goods = goods.old }) sheet.now
        (string_bytes text) (record { money = money.new; goods = goods.new })) }
    ensures err { OnErr result ((money.new ≡ money.old) × (goods.new ≡ goods.old)) }
{
    if sheet.len() > MAX_SHEET_BYTES {
        return refuse_whole(heap);
    }
    let ready = ReadySheet::prepare(heap, sheet, &rule)?;
    Ok(ready.run(money, goods, rule))
}
