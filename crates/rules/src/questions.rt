// What a book is asked, and what it replies.

use crate::calls::Account;
use crate::contracts::ContractStatus;
use crate::orders::LiveOrder;

/// A question to a book, which changes nothing.
#[derive(Clone, Copy, Debug, PartialEq, Eq)]
pub enum Question {
    /// The kopecks in a member's account, as a [`Reply::Sum`]. Refused by 11.
    Amount { member: u64, account: Account },
    /// The kilograms in a member's register of an instrument, as a [`Reply::Sum`]. Refused by 11, 12.
    Stock { member: u64, instrument: u64 },
    /// The amount of an account less the holds on it, in kopecks, as a [`Reply::Limit`]. Refused by 11.
    FreeMoney { member: u64, account: Account },
    /// The amount of a register of goods less the holds on it, in kilograms, as a [`Reply::Limit`]. Refused by 11, 12.
    FreeGoods { member: u64, instrument: u64 },
    /// How many kopecks a member's free position limit is below zero, as a [`Reply::Sum`]. Refused by 11.
    Demand { member: u64 },
    /// A live order by its number, as a [`Reply::TheOrder`]. Refused by 23.
    OrderOf { number: u64 },
    /// A live contract by its number, as a [`Reply::TheContract`]. Refused by 31.
    ContractOf { number: u64 },
}

/// What a question is answered.
#[derive(Clone, Copy, Debug, PartialEq, Eq)]
pub enum Reply {
    /// Kopecks or kilograms.
    Sum(u64),
    /// Kopecks or kilograms; below zero where more is held than there is.
    Limit(i64),
    TheOrder(LiveOrder),
    TheContract(ContractStatus),
}
