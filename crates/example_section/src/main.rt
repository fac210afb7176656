// A section that is run by calls: a book over a journal of money and a table of goods, by the flat rule, for six days;
// and another that is run by requests at once.
#![tactic(auto)]

mod days;
mod listing;
mod replays;

use book::{SessionBook, TradingBook};
use charge::FlatRule;
use keeper::{Entry, JournalKeeper, TableKeeper};
use rules::{Kind, Row};
use section::Section;
use std::io::{BufWriter, Write};

/// The book in either half of the day.
pub(crate) type Trading<'a> = TradingBook<JournalKeeper<'a>, TableKeeper<'a>, FlatRule>;

pub(crate) type Session<'a> = SessionBook<JournalKeeper<'a>, TableKeeper<'a>, FlatRule>;

/// Wheat is kept in a warehouse, coal is shipped by its seller; the third row is passed over, since it has no weight.
const ROWS: [Row; 3] = [
    Row {
        number: 0,
        kind: Kind::Warehouse,
        weight: 1000,
        funding: 1,
        delivery: 10,
        rate: 300,
    },
    Row {
        number: 1,
        kind: Kind::Shipment,
        weight: 60000,
        funding: 0,
        delivery: 0,
        rate: 50,
    },
    Row {
        number: 2,
        kind: Kind::Warehouse,
        weight: 0,
        funding: 0,
        delivery: 0,
        rate: 0,
    },
];

/// What is in a place of the journal that is not written.
const UNWRITTEN: Entry = Entry::Credit {
    receiver: 0,
    amount: 0,
};

fn main(rt: HostRuntime) -> anyhow::Result<()> {
    let mut out = BufWriter::new(rt.alloc(), rt.stdout())?;
    let mut entries = [UNWRITTEN; 9];
    let mut kilograms = [0u64; 64];
    let section = Section::open(rt.alloc(), &FlatRule, &ROWS)?;
    let money = JournalKeeper::open(&mut entries, 8);
    let goods = TableKeeper::open(&mut kilograms);
    let mut trading = TradingBook::new(section, money, goods, FlatRule);
    days::bring(&mut out, &mut trading)?;
    days::trade(&mut out, &mut trading)?;
    let mut session = listing::end_trading(&mut out, trading)?;
    days::settle(&mut out, &mut session)?;
    trading = session.end_session();
    for _ in 1..5 {
        trading = listing::end_trading(&mut out, trading)?.end_session();
    }
    days::rerate(&mut out, &mut trading)?;
    session = listing::end_trading(&mut out, trading)?;
    days::fail(&mut out, &mut session)?;
    let (money, goods, _) = session.end_session().into_parts();
    listing::print_keepers(&mut out, &money, &goods)?;
    replays::run(rt.alloc(), &mut out)?;
    out.flush()?;
    Ok(())
}
