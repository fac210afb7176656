// A day over memory that a caller lends: its registers, and a buffer for the report.
#![tactic(auto)]

ghost use Rattle.std.specs.Prelude.{◌≡◌, ◌≤◌, ◌++◌, length, drop};
ghost use Rattle.lending.specs.Days.{DayRun};

use charge::ChargeRule;
use std::alloc::Global;

/// Returned in place of a length where memory is wanting: C has a number for it, and no Option.
pub const NO_MEMORY: u64 = u64::MAX;

/// Writes a text to the front of a buffer; the rest of it stays.
fn write_front(buffer: &mut [u8], text: &[u8])
    requires { length text.now ≤ length buffer.old }
    ensures { buffer.new ≡ text.now ++ drop (length text.now) buffer.old }
{
    let n = text.len();
    buffer[0..n].copy_from_slice(text);
}

/// Runs a day over two lists of registers, as [`report::run_day`] does, and writes the text of its report to the front
/// of the buffer, if it fits there. Returns the text's length, or [`NO_MEMORY`], and then all three are as they were.
pub fn run_day<R: ChargeRule + Drop>(
    heap: Global,
    sheet: &[u8],
    money: &mut [u64],
    goods: &mut [u64],
    rule: R,
    buffer: &mut [u8],
) -> u64
    ensures { DayRun (R.ChargeRule.top rule) (R.ChargeRule.charge rule) sheet.now
        (record { money = money.old; goods = goods.old; buffer = buffer.old }) result
        (record { money = money.new; goods = goods.new; buffer = buffer.new }) }
{
    let Ok(text) = report::run_day(heap, sheet, money, goods, rule) else {
        return NO_MEMORY;
    };
    let bytes = text.as_bytes();
    if bytes.len() <= buffer.len() {
        write_front(buffer, bytes);
    }
    bytes.len() as u64
}
