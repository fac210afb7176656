// The book of a clearing section, over any two keepers and any charge rule: in each half of the day, and as it goes
// from half to half by the requests that it takes.
#![tactic(auto)]

mod accounts;
mod book;
mod days;
mod entering;
mod halves;
mod limits;
mod questions;
mod runs;
mod section_book;
mod session;
mod trading;
mod transfers;
mod view;

pub use book::{Book, SessionBook, TradingBook};
pub use halves::{HalfOfDay, Session, TakesEvents, TakesOrders, Trading};
pub use runs::replay;
pub use section_book::{BookInHalf, SectionBook};
pub use session::{Delivered, Penalty};
pub use view::BookView;
