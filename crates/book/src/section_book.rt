// The book that goes from half to half.
ghost use Rattle.std.specs.Prelude.{◌≡◌, ◌↔◌, IsTrue, Ok, OnErr};
ghost use Rattle.rules.specs.Answering.{one};
ghost use Rattle.rules.specs.Limits.{trading};
ghost use Rattle.rules.specs.Questions.{reply};
ghost use Rattle.rules.specs.declared.calls.Call.TheVariants.{EndSession, EndTrading};
ghost use Rattle.book.specs.Calls.{Calls, ledger};
ghost use Rattle.book.specs.Steps.{Steps};
ghost use Rattle.book.specs.Views.{parts_of, seen};

use crate::book::{Book, SessionBook, TradingBook};
use crate::halves::{AnyHalf, Session, Trading};
use crate::view::BookView;
use charge::ChargeRule;
use keeper::Keeper;
use rules::{Answer, Answers, Call, Question, Refusal, Reply, Request, RequestFault, Response};
use section::Section;

/// The book that takes every request, and goes from half to half of the day by the closings.
#[derive(Drop)]
pub struct SectionBook<M, G, R> {
    book: Book<AnyHalf, M, G, R>,
}

/// The book of a section book by itself, in its half of the day.
#[derive(Drop)]
pub enum BookInHalf<M, G, R> {
    Trading(TradingBook<M, G, R>),
    Session(SessionBook<M, G, R>),
}

impl<M: Keeper, G: Keeper, R: ChargeRule> BookView for SectionBook<M, G, R> {
    ghost snapshot = { λ b. ⟦<Book<AnyHalf, M, G, R> as BookView>⟧.snapshot b.book };

    ghost goes = { λ b es b'. ⟦<Book<AnyHalf, M, G, R> as BookView>⟧.goes b.book es b'.book };
}

/// A trading book that goes on from half to half.
impl<M: Keeper, G: Keeper, R: ChargeRule> From<TradingBook<M, G, R>> for SectionBook<M, G, R> {
    ghost use Rattle.book.specs.SectionBook.{SameBook, book_of};

    ghost from_gives = { λ half book.
        SameBook ⟦<TradingBook<M, G, R> as BookView>⟧ ⟦<Book<AnyHalf, M, G, R> as BookView>⟧
        half (book_of book) };

    fn from(book: TradingBook<M, G, R>) -> SectionBook<M, G, R> {
        SectionBook::new(book.section, book.money, book.goods, book.rule)
    }
}

/// A session book that goes on from half to half.
impl<M: Keeper, G: Keeper, R: ChargeRule> From<SessionBook<M, G, R>> for SectionBook<M, G, R> {
    ghost use Rattle.book.specs.SectionBook.{SameBook, book_of};

    ghost from_gives = { λ half book.
        SameBook ⟦<SessionBook<M, G, R> as BookView>⟧ ⟦<Book<AnyHalf, M, G, R> as BookView>⟧
        half (book_of book) };

    fn from(book: SessionBook<M, G, R>) -> SectionBook<M, G, R> {
        SectionBook {
            book: Book {
                half: AnyHalf::Session,
                money: book.money,
                goods: book.goods,
                rule: book.rule,
                section: book.section,
            },
        }
    }
}

impl<M: Keeper, G: Keeper, R: ChargeRule> Book<AnyHalf, M, G, R> {
    /// Ends the trading.
    fn close_trading(&mut self) -> u64
        ensures { Calls ⟦<Self as BookView>⟧ self.old EndTrading (Ok (one result)) self.new }
    {
        self.half = AnyHalf::Session;
        self.section.end_trading()
    }

    /// Ends the session.
    fn close_session(&mut self)
        ensures { Calls ⟦<Self as BookView>⟧ self.old EndSession (Ok (one 0)) self.new }
    {
        self.half = AnyHalf::Trading;
        self.section.end_session();
    }

    /// Makes a call, whichever half takes it.
    fn make(&mut self, call: Call) -> Result<Answers, Refusal>
        ensures called { Calls ⟦<Self as BookView>⟧ self.old call result self.new }
        ensures err { OnErr result (self.new ≡ self.old) }
    {
        match call {
            Call::Deposit {
                member,
                account,
                amount,
            } => self.deposit(member, account, amount).map(Answers::from),
            Call::DepositGoods {
                member,
                instrument,
                kilograms,
            } => self
                .deposit_goods(member, instrument, kilograms)
                .map(Answers::from),
            Call::Withdraw {
                member,
                account,
                amount,
            } => self.withdraw(member, account, amount).map(Answers::from),
            Call::Shift {
                member,
                source,
                amount,
            } => self.shift(member, source, amount).map(Answers::from),
            Call::WithdrawGoods {
                member,
                instrument,
                kilograms,
            } => self
                .withdraw_goods(member, instrument, kilograms)
                .map(Answers::from),
            Call::Place(order) => self.place(order).map(Answers::from),
            Call::Cancel { order } => self.cancel(order).map(Answers::from),
            Call::Execute(trade) => self.execute(trade).map(Answers::from),
            Call::Rerate { instrument, rate } => self.rerate(instrument, rate).map(Answers::from),
            Call::EndTrading => Ok(self.close_trading().into()),
            Call::Settle { contract, event } => self.settle(contract, event),
            Call::EndSession => {
                self.close_session();
                Ok(Answers::from(0))
            }
        }
    }
}

impl<M: Keeper, G: Keeper, R: ChargeRule> SectionBook<M, G, R> {
    ghost use Rattle.book.specs.SectionBook.{SameBook, StandsInHalf, book_of};

    /// The book of a section over two keepers and a charge rule, in trading. It begins as a book that was just opened only
    /// where the section was opened by this rule and has not changed since; [`TradingBook::open`] sees to both.
    pub fn new(section: Section, money: M, goods: G, rule: R) -> SectionBook<M, G, R>
        ensures snapshot { ⟦<Self as BookView>⟧.snapshot result
            ≡ seen trading M.Registers G.Registers R.ChargeRule section money goods rule }
        ensures parts { parts_of (book_of result) ≡ (money, goods, rule) }
    {
        SectionBook {
            book: Book {
                half: AnyHalf::Trading,
                money,
                goods,
                rule,
                section,
            },
        }
    }

    /// Takes a request: makes a call that this half of the day takes, or answers a question.
    pub fn take(&mut self, request: Request) -> Response
        ensures steps { Steps ⟦<Self as BookView>⟧ self.old request result self.new }
        ensures err { OnErr result (self.new ≡ self.old) }
    {
        match request {
            Request::Ask(question) => Ok(Answer::Replied(self.ask(question)?)),
            Request::Make(call) => {
                if !self.book.half.takes(&call) {
                    return Err(RequestFault::Misplaced);
                }
                Ok(Answer::Accepted(self.book.make(call)?))
            }
        }
    }

    /// Answers a question; nothing changes.
    pub fn ask(&self, question: Question) -> Result<Reply, Refusal>
        ensures { result ≡ reply (ledger ⟦<Self as BookView>⟧ self.now) question }
    {
        self.book.ask(question)
    }

    /// Whether the book is in trading; if not, it is in the session.
    pub fn is_trading(&self) -> bool
        ensures { IsTrue result ↔ ((ledger ⟦<Self as BookView>⟧ self.now).half ≡ trading) }
    {
        matches!(self.book.half, AnyHalf::Trading)
    }

    /// The book by itself, in its half of the day; [`SectionBook::from`] leads back.
    pub fn into_half(self) -> BookInHalf<M, G, R>
        ensures { StandsInHalf
            (λ half. SameBook ⟦<TradingBook<M, G, R> as BookView>⟧
            ⟦<Book<AnyHalf, M, G, R> as BookView>⟧ half (book_of self))
            (λ half. SameBook ⟦<SessionBook<M, G, R> as BookView>⟧
            ⟦<Book<AnyHalf, M, G, R> as BookView>⟧ half (book_of self)) result }
    {
        let Book {
            half,
            money,
            goods,
            rule,
            section,
        } = self.book;
        match half {
            AnyHalf::Trading => BookInHalf::Trading(Book {
                half: Trading,
                money,
                goods,
                rule,
                section,
            }),
            AnyHalf::Session => BookInHalf::Session(Book {
                half: Session,
                money,
                goods,
                rule,
                section,
            }),
        }
    }

    /// Gives back the keepers and the rule: a journal's entries are then at hand.
    pub fn into_parts(self) -> (M, G, R)
        ensures { result ≡ parts_of (book_of self) }
    {
        self.book.into_parts()
    }
}
