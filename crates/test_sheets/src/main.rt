// Runs the day sheets that lie beside it, each under its name: over tables, as the program does, and some over
// journals, whose lists are then printed whole.
#![tactic(auto)]

use charge::PercentRule;
use console::run_day;
use keeper::{Entry, JournalKeeper};
use report::run_sheet;
use std::alloc::AllocError;
use std::fs;
use std::io::{BufWriter, Write};

/// The sheets that are run over tables.
const TABLE_DAYS: [&str; 13] = [
    "accounts",
    "opening",
    "rows",
    "empty",
    "feed",
    "exchange",
    "settlement",
    "limit",
    "big",
    "big-feed",
    "rows-alone",
    "fields",
    "garbage",
];

/// A sheet that is run over journals of so many places.
struct JournalDay {
    name: &'static str,
    money: usize,
    goods: usize,
}

const JOURNAL_DAYS: [JournalDay; 3] = [
    JournalDay {
        name: "sample",
        money: 6,
        goods: 2,
    },
    JournalDay {
        name: "journal",
        money: 8,
        goods: 3,
    },
    JournalDay {
        name: "journal-money-first",
        money: 2,
        goods: 4,
    },
];

/// What is in each place before the run; no keeper accepts it.
const UNWRITTEN: Entry = Entry::Credit {
    receiver: 0,
    amount: 0,
};

/// The file of a sheet.
fn path(rt: &HostRuntime, name: &str) -> Result<String, AllocError> {
    format!(in rt.alloc(); "{name}.txt")
}

/// Prints a keeper's list, an entry a line.
fn print_entries<O: Write>(out: &mut O, keeper: &str, entries: &[Entry]) -> anyhow::Result<()> {
    for entry in entries {
        writeln!(out, "{keeper} {entry:?}")?;
    }
    Ok(())
}

/// Runs a sheet over journals, and prints its report and all places of both.
fn run_over_journals<O: Write>(
    rt: &HostRuntime,
    day: &JournalDay,
    out: &mut O,
) -> anyhow::Result<()> {
    let sheet = fs::read(rt, path(rt, day.name)?)?;
    let mut money = vec![in rt.alloc(); UNWRITTEN; day.money]?;
    let mut goods = vec![in rt.alloc(); UNWRITTEN; day.goods]?;
    let report = run_sheet(
        rt.alloc(),
        sheet.as_slice(),
        &mut JournalKeeper::open(money.as_mut_slice(), 128),
        &mut JournalKeeper::open(goods.as_mut_slice(), 1024),
        PercentRule,
    )?;
    out.write_all(report.as_bytes())?;
    print_entries(out, "money", money.as_slice())?;
    print_entries(out, "goods", goods.as_slice())
}

fn main(rt: HostRuntime) -> anyhow::Result<()> {
    let mut out = BufWriter::new(rt.alloc(), rt.stdout())?;
    for name in TABLE_DAYS {
        writeln!(out, "== {name}")?;
        run_day(rt.alloc(), fs::open(&rt, path(&rt, name)?)?, &mut out)?;
    }
    for day in &JOURNAL_DAYS {
        writeln!(out, "== {}", day.name)?;
        run_over_journals(&rt, day, &mut out)?;
    }
    out.flush()?;
    Ok(())
}
