// The rows of a sheet.
ghost use Rattle.std.specs.Prelude.{◌≡◌, ◌+◌, ◌≤◌, ◌++◌, length, IfOk, OnOk};
ghost use Rattle.sheet.specs.Cursors.{lines_left};
ghost use Rattle.report.specs.Reports.{row_answers};
ghost use Rattle.report.specs.Parsed.{row_in};
ghost use Rattle.report.specs.Runs.{HasRoom, RowsTaken, parsed_row};

use crate::faults::SheetFault;
use crate::writing::Report;
use rules::{Answers, Row};
use sheet::{LineFault, Lines};
use std::alloc::{AllocError, Global};

/// A row answers 0 and 0.
fn row_answers(row: Result<Row, LineFault>) -> Result<Answers, SheetFault>
    ensures { result ≡ row_answers row }
{
    row?;
    Ok(Answers::from(0))
}

/// Adds a row that is read, if it is one.
fn add_row(rows: &mut Vec<Row>, row: Result<Row, LineFault>) -> Result<(), AllocError>
    ensures { OnOk result (rows.new.items ≡ rows.old.items ++ row_in (parsed_row row)) }
{
    if let Ok(row) = row {
        rows.push(row)?;
    }
    Ok(())
}

/// Takes the rows of a sheet, up to the line that opens the book, and reports on them.
pub(crate) fn take_rows(
    heap: Global,
    lines: &mut Lines<'_>,
    report: &mut Report,
) -> Result<Vec<Row>, AllocError>
    requires few { report.old.lines + length (lines_left lines.old) ≤ 65537 }
    requires room { HasRoom report.old (length (lines_left lines.old) + 64) }
    ensures taken { IfOk result (λ rows.
        RowsTaken (lines_left lines.old) report.old rows.items (lines_left lines.new) report.new) }
    ensures room { IfOk result (λ _. HasRoom report.new (length (lines_left lines.new) + 64)) }
{
    let mut rows = Vec::new(heap);
    while let Some(row) = lines.next_row() {
        report.add_answers(row_answers(row));
        add_row(&mut rows, row)?;
    }
    Ok(rows)
}
