// The library that other languages link: a day sheet in, the text of its report out.
#![tactic(auto)]

ghost use Rattle.charge.specs.Charges.{flat, flat_top, percent, percent_top};
ghost use Rattle.lending.specs.Days.{DayRun};

use charge::{FlatRule, PercentRule};
use lending::run_day;
use std::alloc::Global;

// A function for each rule, and each slice by itself: C passes neither types nor structs of slices.

/// Runs a day sheet by the percent rule.
#[unsafe(no_mangle)]
pub extern "C" fn zaldrif_run_day(
    heap: Global,
    sheet: &[u8],
    money: &mut [u64],
    goods: &mut [u64],
    report: &mut [u8],
) -> u64
    ensures { DayRun percent_top percent sheet.now
        (record { money = money.old; goods = goods.old; buffer = report.old }) result
        (record { money = money.new; goods = goods.new; buffer = report.new }) }
{
    run_day(heap, sheet, money, goods, PercentRule, report)
}

/// Runs a day sheet by the flat rule.
#[unsafe(no_mangle)]
pub extern "C" fn zaldrif_run_flat_day(
    heap: Global,
    sheet: &[u8],
    money: &mut [u64],
    goods: &mut [u64],
    report: &mut [u8],
) -> u64
    ensures { DayRun flat_top flat sheet.now
        (record { money = money.old; goods = goods.old; buffer = report.old }) result
        (record { money = money.new; goods = goods.new; buffer = report.new }) }
{
    run_day(heap, sheet, money, goods, FlatRule, report)
}
