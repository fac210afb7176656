// What is printed of each call, and of the keepers at the end.

use crate::{Session, Trading};
use keeper::{JournalKeeper, Registers, TableKeeper};
use rules::{Question, Refusal, Reply};
use std::fmt::Debug;
use std::io;
use std::io::Write;

/// Prints an answer, or why there is none.
fn print_result<O: Write, T: Debug + Drop>(
    out: &mut O,
    answer: Result<T, Refusal>,
) -> io::Result<()> {
    match answer {
        Ok(answer) => writeln!(out, "{answer:?}"),
        Err(refusal) => {
            let number = refusal.number();
            writeln!(out, "refused by {number}, {refusal}")
        }
    }
}

/// Prints what is called, and its answer.
pub(crate) fn print_call<O: Write, T: Debug + Drop>(
    out: &mut O,
    call: &str,
    answer: Result<T, Refusal>,
) -> io::Result<()> {
    write!(out, "{call}: ")?;
    print_result(out, answer)
}

/// Prints what is asked, and the reply.
pub(crate) fn print_reply<O: Write>(
    out: &mut O,
    question: Question,
    reply: Result<Reply, Refusal>,
) -> io::Result<()> {
    write!(out, "{question:?}: ")?;
    print_result(out, reply)
}

/// Ends a day's trading.
pub(crate) fn end_trading<'a, O: Write>(out: &mut O, book: Trading<'a>) -> io::Result<Session<'a>> {
    let (session, dropped) = book.end_trading();
    writeln!(out, "trading ends, orders dropped: {dropped}")?;
    Ok(session)
}

/// Prints the amount of a register, or that there is none.
fn print_amount<O: Write, K: Registers>(
    out: &mut O,
    name: &str,
    keeper: &K,
    register: usize,
) -> io::Result<()> {
    match keeper.amount(register) {
        Ok(amount) => writeln!(out, "{name} {register}: {amount}"),
        Err(fault) => writeln!(out, "{name} {register}: {fault}"),
    }
}

/// Prints the entries of the journal, the registers of both members, and the first that there is not.
pub(crate) fn print_keepers<O: Write>(
    out: &mut O,
    money: &JournalKeeper<'_>,
    goods: &TableKeeper<'_>,
) -> io::Result<()> {
    for entry in money.entries() {
        writeln!(out, "{entry:?}")?;
    }
    for register in [2, 3, 4, 5, 8] {
        print_amount(out, "money", money, register)?;
    }
    for register in [16, 32, 64] {
        print_amount(out, "goods", goods, register)?;
    }
    Ok(())
}
