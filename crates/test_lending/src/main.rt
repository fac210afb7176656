// Days over memory that is longer than what a run uses, by both rules: the reports, and what the registers and the
// buffer then hold.
#![tactic(auto)]

use charge::{ChargeRule, FlatRule, PercentRule};
use lending::run_day;
use std::fs;
use std::io::{BufWriter, Write};

const PLACES: usize = 1_100;

const BUFFER: usize = 1_024;

/// What stands in each place and byte before a day.
const PATTERN: u8 = 0x5a;

/// Runs a day and prints the length that it returns, the report, how much stayed as it was, and each amount.
fn show<R: ChargeRule + Drop, O: Write>(
    rt: &HostRuntime,
    name: &str,
    sheet: &[u8],
    rule: R,
    room: usize,
    out: &mut O,
) -> anyhow::Result<()> {
    let mut money = [u64::from(PATTERN); PLACES];
    let mut goods = [u64::from(PATTERN); PLACES];
    let mut buffer = [PATTERN; BUFFER];
    let room = room.min(BUFFER);
    let length = run_day(
        rt.alloc(),
        sheet,
        &mut money,
        &mut goods,
        rule,
        &mut buffer[..room],
    );
    writeln!(out, "== {name}: {length} bytes, room for {room}")?;
    let written = (length as usize).min(room);
    if length <= room as u64 {
        out.write_all(&buffer[..written])?;
    }
    let kept = buffer.iter().filter(|byte| **byte == PATTERN).count();
    writeln!(out, "bytes of the buffer that stayed: {kept}")?;
    show_places(out, "money", &money)?;
    show_places(out, "goods", &goods)
}

/// Prints how many places stayed, and each that has an amount.
fn show_places<O: Write>(out: &mut O, name: &str, places: &[u64]) -> anyhow::Result<()> {
    let kept = places
        .iter()
        .filter(|place| **place == u64::from(PATTERN))
        .count();
    writeln!(out, "places of {name} that stayed: {kept}")?;
    for (i, place) in places.iter().enumerate() {
        if *place != 0 && *place != u64::from(PATTERN) {
            writeln!(out, "{name} {i}: {place}")?;
        }
    }
    Ok(())
}

fn main(rt: HostRuntime) -> anyhow::Result<()> {
    let mut out = BufWriter::new(rt.alloc(), rt.stdout())?;
    let sample = fs::read(&rt, "sample.txt")?;
    let flat = fs::read(&rt, "flat.txt")?;
    show(
        &rt,
        "sample",
        sample.as_slice(),
        PercentRule,
        BUFFER,
        &mut out,
    )?;
    show(&rt, "flat", flat.as_slice(), FlatRule, BUFFER, &mut out)?;
    show(
        &rt,
        "no room",
        sample.as_slice(),
        PercentRule,
        100,
        &mut out,
    )?;
    let long = vec![in rt.alloc(); b'\n'; 65_537]?;
    show(
        &rt,
        "too long",
        long.as_slice(),
        PercentRule,
        BUFFER,
        &mut out,
    )?;
    out.flush()?;
    Ok(())
}
