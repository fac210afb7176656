// What members, the exchange and staff call, from day to day.

use crate::listing::{print_call, print_reply};
use crate::{Session, Trading};
use rules::{Account, Order, Question, Side, Trade};
use std::io;
use std::io::Write;

const ORDERS: [Order; 5] = [
    Order {
        number: 1,
        member: 1,
        side: Side::Buy,
        instrument: 0,
        price: 1100,
        lots: 2,
        last: None,
    },
    Order {
        number: 2,
        member: 2,
        side: Side::Sell,
        instrument: 0,
        price: 1050,
        lots: 3,
        last: None,
    },
    Order {
        number: 3,
        member: 2,
        side: Side::Sell,
        instrument: 0,
        price: 1000,
        lots: 1,
        last: None,
    },
    Order {
        number: 3,
        member: 1,
        side: Side::Buy,
        instrument: 1,
        price: 500,
        lots: 4,
        last: Some(0),
    },
    Order {
        number: 4,
        member: 2,
        side: Side::Sell,
        instrument: 1,
        price: 400,
        lots: 1,
        last: None,
    },
];

const WHEAT_TRADE: Trade = Trade {
    contract: 1,
    buy: 1,
    sell: 2,
    price: 1100,
    lots: 2,
};

const COAL_TRADE: Trade = Trade {
    contract: 2,
    buy: 3,
    sell: 4,
    price: 450,
    lots: 1,
};

/// What is asked once the orders are placed.
const ON_ORDERS: [Question; 7] = [
    Question::Amount {
        member: 1,
        account: Account::Position,
    },
    Question::Stock {
        member: 2,
        instrument: 0,
    },
    Question::FreeMoney {
        member: 1,
        account: Account::Position,
    },
    Question::FreeGoods {
        member: 2,
        instrument: 0,
    },
    Question::FreeGoods {
        member: 2,
        instrument: 2,
    },
    Question::Demand { member: 4 },
    Question::OrderOf { number: 2 },
];

/// What is asked at a rate that the buyer cannot bear.
const ON_RATING: [Question; 4] = [
    Question::Demand { member: 1 },
    Question::FreeMoney {
        member: 1,
        account: Account::Position,
    },
    Question::OrderOf { number: 1 },
    Question::ContractOf { number: 1 },
];

/// What is asked after a part delivery.
const ON_DELIVERY: [Question; 4] = [
    Question::ContractOf { number: 1 },
    Question::Stock {
        member: 1,
        instrument: 0,
    },
    Question::FreeMoney {
        member: 1,
        account: Account::Clearing,
    },
    Question::ContractOf { number: 3 },
];

/// Day 0, trading: members bring money and goods.
pub(crate) fn bring<O: Write>(out: &mut O, book: &mut Trading<'_>) -> io::Result<()> {
    print_call(
        out,
        "member 1 brings 1000 to position",
        book.deposit(1, Account::Position, 1000),
    )?;
    print_call(
        out,
        "member 1 brings 2200 to clearing",
        book.deposit(1, Account::Clearing, 2200),
    )?;
    print_call(
        out,
        "member 2 brings 100 to position",
        book.deposit(2, Account::Position, 100),
    )?;
    print_call(
        out,
        "member 2 brings 3000 kg of wheat",
        book.deposit_goods(2, 0, 3000),
    )?;
    print_call(
        out,
        "member 2 brings 500 kg of coal",
        book.deposit_goods(2, 1, 500),
    )?;
    print_call(
        out,
        "member 4 brings 1 to position",
        book.deposit(4, Account::Position, 1),
    )
}

/// Day 0, trading: orders, trades and ratings.
pub(crate) fn trade<O: Write>(out: &mut O, book: &mut Trading<'_>) -> io::Result<()> {
    for order in ORDERS {
        print_call(out, "order", book.place(order))?;
    }
    for question in ON_ORDERS {
        print_reply(out, question, book.ask(question))?;
    }
    print_call(out, "contract 1", book.execute(WHEAT_TRADE))?;
    print_call(out, "contract 2", book.execute(COAL_TRADE))?;
    print_call(out, "contract 1 again", book.execute(WHEAT_TRADE))?;
    print_call(out, "wheat is rated 600", book.rerate(0, 600))?;
    for question in ON_RATING {
        print_reply(out, question, book.ask(question))?;
    }
    print_call(out, "wheat is rated 300", book.rerate(0, 300))?;
    print_call(out, "order 2 is cancelled", book.cancel(2))?;
    print_call(
        out,
        "member 2 takes 1000 kg of wheat",
        book.withdraw_goods(2, 0, 1000),
    )?;
    print_call(
        out,
        "member 1 takes 201 from position",
        book.withdraw(1, Account::Position, 201),
    )?;
    print_call(
        out,
        "member 1 shifts 200 from position",
        book.shift(1, Account::Position, 200),
    )
}

/// Day 0, session: both contracts are funded, and wheat is delivered in part.
pub(crate) fn settle<O: Write>(out: &mut O, book: &mut Session<'_>) -> io::Result<()> {
    print_call(out, "contract 1 is funded", book.fund(1))?;
    print_call(out, "contract 2 is funded", book.fund(2))?;
    print_call(
        out,
        "member 1 brings 250 to clearing",
        book.deposit(1, Account::Clearing, 250),
    )?;
    print_call(out, "contract 2 is funded", book.fund(2))?;
    print_call(out, "500 kg of contract 1", book.deliver(1, 500))?;
    print_call(out, "0 kg of contract 1", book.deliver(1, 0))?;
    print_call(out, "contract 1 defaults", book.default(1))?;
    print_call(out, "contract 2 defaults", book.default(2))?;
    for question in ON_DELIVERY {
        print_reply(out, question, book.ask(question))?;
    }
    Ok(())
}

/// Day 5, trading: coal is rated above what its seller has.
pub(crate) fn rerate<O: Write>(out: &mut O, book: &mut Trading<'_>) -> io::Result<()> {
    print_call(
        out,
        "member 2 takes 50 from position",
        book.withdraw(2, Account::Position, 50),
    )?;
    print_call(
        out,
        "coal is rated 1000000001",
        book.rerate(1, 1_000_000_001),
    )?;
    print_call(out, "coal is rated 80", book.rerate(1, 80))?;
    print_reply(
        out,
        Question::Demand { member: 2 },
        book.ask(Question::Demand { member: 2 }),
    )
}

/// Day 5, session: the seller of coal fails, and the rest of the wheat is delivered; then the journal is full.
pub(crate) fn fail<O: Write>(out: &mut O, book: &mut Session<'_>) -> io::Result<()> {
    print_call(out, "1000 kg of contract 2", book.deliver(2, 1000))?;
    print_call(out, "contract 2 defaults", book.default(2))?;
    print_call(out, "5000 kg of contract 1", book.deliver(1, 5000))?;
    print_call(out, "1 kg of contract 1", book.deliver(1, 1))?;
    print_call(
        out,
        "member 2 brings 1 to clearing",
        book.deposit(2, Account::Clearing, 1),
    )?;
    print_call(
        out,
        "member 2 brings 1 kg of wheat",
        book.deposit_goods(2, 0, 1),
    )
}
