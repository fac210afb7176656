// A day over the lists of a caller.
ghost use Rattle.std.specs.Prelude.{◌≡◌, string_bytes, IfOk, OnErr};
ghost use Rattle.report.specs.Days.{DayReported};

use crate::ready::{ReadySheet, refuse_whole};
use charge::ChargeRule;
use keeper::TableKeeper;
use rules::MAX_SHEET_BYTES;
use std::alloc::{AllocError, Global};

/// Runs a day sheet over table keepers of two lists, and writes its report. The lists end with the amounts of their
/// registers, of which each has one for each place and 1,024 at most, and beyond them as they were. Both are untouched
/// where the sheet is too long or memory is wanting.
pub fn run_day<R: ChargeRule + Drop>(
    heap: Global,
    sheet: &[u8],
    money: &mut [u64],
    goods: &mut [u64],
    rule: R,
) -> Result<String, AllocError>
    ensures ok { IfOk result (λ text.
        DayReported (R.ChargeRule.top rule) (R.ChargeRule.charge rule) money.old goods.old sheet.now
        (string_bytes text) money.new goods.new) }
    ensures err { OnErr result ((money.new ≡ money.old) × (goods.new ≡ goods.old)) }
{
    if sheet.len() > MAX_SHEET_BYTES {
        return refuse_whole(heap);
    }
    let ready = ReadySheet::prepare(heap, sheet, &rule)?;
    let mut money = TableKeeper::open(money);
    let mut goods = TableKeeper::open(goods);
    Ok(ready.run(&mut money, &mut goods, rule))
}
