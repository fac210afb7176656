// The book in one half of the day.
use crate::halves::{Session, Trading};
use section::Section;

/// The book of a section in a half of the day: its two keepers, its charge rule and the section's own state.
/// A closing takes it and gives the book of the next half.
#[derive(Drop)]
pub struct Book<H, M, G, R> {
    pub(crate) half: H,
    pub(crate) money: M,
    pub(crate) goods: G,
    pub(crate) rule: R,
    pub(crate) section: Section,
}

/// The book of a trading half: members bring and take, and the exchange trades.
pub type TradingBook<M, G, R> = Book<Trading, M, G, R>;

/// The book of a session: members bring, and staff settle.
pub type SessionBook<M, G, R> = Book<Session, M, G, R>;
