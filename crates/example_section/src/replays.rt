// Requests that are all at hand, run at once.

use crate::{ROWS, UNWRITTEN};
use book::{BookInHalf, SectionBook, replay};
use charge::FlatRule;
use keeper::{JournalKeeper, Registers, TableKeeper};
use rules::{Account, Call, Event, Order, Question, Request, Response, Side};
use std::alloc::Global;
use std::io;
use std::io::Write;

const FUNDING: Request = Request::Make(Call::Settle {
    contract: 1,
    event: Event::Funding,
});

const REQUESTS: [Request; 6] = [
    Request::Make(Call::Deposit {
        member: 1,
        account: Account::Position,
        amount: 700,
    }),
    Request::Make(Call::Place(Order {
        number: 1,
        member: 1,
        side: Side::Buy,
        instrument: 0,
        price: 1100,
        lots: 2,
        last: None,
    })),
    Request::Ask(Question::FreeMoney {
        member: 1,
        account: Account::Position,
    }),
    FUNDING,
    Request::Make(Call::Withdraw {
        member: 1,
        account: Account::Position,
        amount: 101,
    }),
    Request::Make(Call::Withdraw {
        member: 1,
        account: Account::Position,
        amount: 100,
    }),
];

/// Runs them over a journal of three places and brings the book into the session by hand. Prints the responses, the
/// response to a funding there, and what is in the journal.
pub(crate) fn run<O: Write>(heap: Global, out: &mut O) -> anyhow::Result<()> {
    let mut places = [UNWRITTEN; 3];
    let mut kilograms = [0u64; 64];
    let money = JournalKeeper::open(&mut places, 8);
    let goods = TableKeeper::open(&mut kilograms);
    let (responses, book) = replay(heap, &ROWS, money, goods, FlatRule, &REQUESTS)?;
    for response in responses.as_slice() {
        print_response(out, *response)?;
    }
    let mut book = match book.into_half() {
        BookInHalf::Trading(book) => SectionBook::from(book.end_trading().0),
        BookInHalf::Session(book) => SectionBook::from(book),
    };
    print_response(out, book.take(FUNDING))?;
    let (money, _, _) = book.into_parts();
    for entry in money.entries() {
        writeln!(out, "{entry:?}")?;
    }
    let free = money.spare();
    writeln!(out, "places free: {free}")?;
    Ok(())
}

fn print_response<O: Write>(out: &mut O, response: Response) -> io::Result<()> {
    match response {
        Ok(answer) => writeln!(out, "{answer:?}"),
        Err(fault) => writeln!(out, "{fault}"),
    }
}
