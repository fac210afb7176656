// Reads a line.
ghost use Rattle.std.specs.Prelude.{◌≡◌, false, true, IfNone, IfSome};
ghost use Rattle.sheet.specs.Readings.{Reading};
ghost use Rattle.sheet.specs.Lines.{by_verb, read_line, row_line};
ghost use Rattle.sheet.specs.Pieces.{parts_after};
ghost use Rattle.sheet.specs.Texts.{ReadsExactly};
ghost use Rattle.sheet.specs.Verbs.{names_row, verb_in};

use crate::cutting::cut;
use crate::faults::LineFault;
use crate::outcome::Line;
use crate::verbs;
use rules::{MAX_LINE_BYTES, Row};

/// What a verb and the fields after it read as.
#[inline(always)]
fn by_verb(verb: &[u8], rest: Option<&[u8]>) -> Result<Line, LineFault>
    ensures { result ≡ by_verb (verb_in verb.now) (parts_after rest.entry) }
{
    match verb {
        b"INS" => verbs::row(rest).map(Line::Instrument),
        b"DEP" => verbs::deposit(rest),
        b"WDR" => verbs::withdrawal(rest),
        b"SHF" => verbs::shift(rest),
        b"GIN" => verbs::goods_deposit(rest),
        b"GOT" => verbs::goods_withdrawal(rest),
        b"ORD" => verbs::order(rest),
        b"CXL" => verbs::cancel(rest),
        b"TRD" => verbs::trade(rest),
        b"RTE" => verbs::rating(rest),
        b"EOT" => verbs::end_of_trading(rest),
        b"FND" => verbs::funding(rest),
        b"DLV" => verbs::delivery(rest),
        b"DFT" => verbs::default(rest),
        b"EOD" => verbs::end_of_session(rest),
        _ => Err(LineFault::UnknownVerb),
    }
}

/// What a line reads as, without its feed.
#[inline(always)]
pub fn read_line(line: &[u8]) -> Result<Line, LineFault>
    ensures value { result ≡ read_line line.now }
    ensures reading { Reading line.now result }
    ensures exact { ReadsExactly line.now result }
{
    if line.len() > MAX_LINE_BYTES {
        return Err(LineFault::LongLine);
    }
    let (verb, rest) = cut(b',', line);
    by_verb(verb, rest)
}

/// What a line whose first field is INS reads as, or none where another stands there, however long the line is.
pub(crate) fn read_row(line: &[u8]) -> Option<Result<Row, LineFault>>
    ensures other { IfNone result (names_row line.now ≡ false) }
    ensures named { IfSome result (λ r. names_row line.now ≡ true) }
    ensures value { IfSome result (λ r. read_line line.now ≡ row_line r) }
{
    let (verb, rest) = cut(b',', line);
    if !matches!(verb, b"INS") {
        return None;
    }
    if line.len() > MAX_LINE_BYTES {
        return Some(Err(LineFault::LongLine));
    }
    Some(verbs::row(rest))
}
