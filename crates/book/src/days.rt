// The opening of a trading book, the ends of the halves, and what a book gives back.
ghost use Rattle.std.specs.Prelude.{◌≡◌, IfOk, Ok};
ghost use Rattle.rules.specs.Answering.{one};
ghost use Rattle.rules.specs.Law.{opened, start};
ghost use Rattle.rules.specs.Runs.{Called, KeepersGoOn};
ghost use Rattle.rules.specs.declared.calls.Call.TheVariants.{EndSession, EndTrading};
ghost use Rattle.rules.specs.Limits.{trading};
ghost use Rattle.book.specs.Views.{keepers_of, parts_of, seen};

use crate::book::{Book, SessionBook, TradingBook};
use crate::halves::{HalfOfDay, Session, Trading};
use crate::view::BookView;
use charge::ChargeRule;
use keeper::Keeper;
use rules::Row;
use section::Section;
use std::alloc::{AllocError, Global};

impl<M: Keeper + Drop, G: Keeper + Drop, R: ChargeRule + Drop> TradingBook<M, G, R> {
    /// Opens on day 0 with the rows that can be used under the charge rule. It refuses no row; only memory can be
    /// wanting, and then the keepers are gone: with [`Section::open`] and [`TradingBook::new`] they are kept.
    pub fn open(
        heap: Global,
        rows: &[Row],
        money: M,
        goods: G,
        rule: R,
    ) -> Result<TradingBook<M, G, R>, AllocError>
        ensures opened { IfOk result (λ b.
            ⟦<Self as BookView>⟧.snapshot b
            ≡ opened (start M.Registers G.Registers R.ChargeRule rows.now money goods rule)) }
        ensures parts { IfOk result (λ b. parts_of b ≡ (money, goods, rule)) }
    {
        let section = Section::open(heap, &rule, rows)?;
        Ok(TradingBook::new(section, money, goods, rule))
    }
}

impl<M: Keeper, G: Keeper, R: ChargeRule> TradingBook<M, G, R> {
    /// The book of a section over two keepers and a charge rule, in trading. It begins as a book that was just opened only
    /// where the section was opened by this rule and has not changed since; [`TradingBook::open`] sees to both.
    pub fn new(section: Section, money: M, goods: G, rule: R) -> TradingBook<M, G, R>
        ensures snapshot { ⟦<Self as BookView>⟧.snapshot result
            ≡ seen trading M.Registers G.Registers R.ChargeRule section money goods rule }
        ensures parts { parts_of result ≡ (money, goods, rule) }
    {
        Book {
            half: Trading,
            money,
            goods,
            rule,
            section,
        }
    }

    /// Ends the trading: orders whose last day it was are dropped. Answers how many.
    pub fn end_trading(self) -> (SessionBook<M, G, R>, u64)
        ensures { Called
            (λ es. KeepersGoOn M.Registers G.Registers (keepers_of self) es (keepers_of result.0))
            (⟦<Self as BookView>⟧.snapshot self) EndTrading (Ok (one result.1))
            (⟦<SessionBook<M, G, R> as BookView>⟧.snapshot result.0) }
    {
        let Book {
            half: _,
            money,
            goods,
            rule,
            mut section,
        } = self;
        let dropped = section.end_trading();
        let book = Book {
            half: Session,
            money,
            goods,
            rule,
            section,
        };
        (book, dropped)
    }
}

impl<M: Keeper, G: Keeper, R: ChargeRule> SessionBook<M, G, R> {
    /// Ends the session: gives the next day's trading book.
    pub fn end_session(self) -> TradingBook<M, G, R>
        ensures { Called
            (λ es. KeepersGoOn M.Registers G.Registers (keepers_of self) es (keepers_of result))
            (⟦<Self as BookView>⟧.snapshot self) EndSession (Ok (one 0))
            (⟦<TradingBook<M, G, R> as BookView>⟧.snapshot result) }
    {
        let Book {
            half: _,
            money,
            goods,
            rule,
            mut section,
        } = self;
        section.end_session();
        Book {
            half: Trading,
            money,
            goods,
            rule,
            section,
        }
    }
}

impl<H: HalfOfDay + Drop, M, G, R> Book<H, M, G, R> {
    /// Gives back the keepers and the rule: a journal's entries are then at hand.
    pub fn into_parts(self) -> (M, G, R)
        ensures { result ≡ parts_of self }
    {
        (self.money, self.goods, self.rule)
    }
}
