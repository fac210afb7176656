// What a book answers when it is asked.
ghost use Rattle.std.specs.Prelude.{◌≡◌, true, Err, MatchResult};
ghost use Rattle.rules.specs.Limits.{demand, has_row, known};
ghost use Rattle.rules.specs.Questions.{of_goods, reply};
ghost use Rattle.rules.specs.declared.questions.Reply.{Reply};
ghost use Rattle.book.specs.Calls.{ledger};

use crate::book::Book;
use crate::halves::HalfOfDay;
use crate::view::BookView;
use charge::ChargeRule;
use keeper::Keeper;
use rules::{Account, Question, Refusal, Reply};
use section::{Member, Stock, held};

impl<H: HalfOfDay, M: Keeper, G: Keeper, R: ChargeRule> Book<H, M, G, R> {
    /// The margin demand: how far the free position limit is below zero.
    fn demand(&self, member: Member) -> u64
        ensures { result ≡ demand (ledger ⟦<Self as BookView>⟧ self.now) member.number }
    {
        self.free_money(member, Account::Position)
            .min(0)
            .unsigned_abs()
    }

    /// The goods that a question names, if the member is known and the instrument has a row.
    fn asked_stock(&self, member: u64, instrument: u64) -> Result<Stock, Refusal>
        ensures { MatchResult result
            (λ s. (known (ledger ⟦<Self as BookView>⟧ self.now) member ≡ true)
            × (has_row (ledger ⟦<Self as BookView>⟧ self.now) instrument ≡ true)
            × (s.member.number ≡ member) × (s.instrument ≡ instrument))
            (λ e. (r : Reply) →
            of_goods (ledger ⟦<Self as BookView>⟧ self.now) member instrument r ≡ Err e) }
    {
        self.section.stock(self.member(member)?, instrument)
    }

    /// Amounts, free limits, demands, live orders and live contracts; nothing changes.
    pub fn ask(&self, question: Question) -> Result<Reply, Refusal>
        ensures { result ≡ reply (ledger ⟦<Self as BookView>⟧ self.now) question }
    {
        match question {
            Question::Amount { member, account } => {
                let register = self.member(member)?.account(account);
                Ok(Reply::Sum(held(&self.money, register)))
            }
            Question::Stock { member, instrument } => {
                let register = self.asked_stock(member, instrument)?.register();
                Ok(Reply::Sum(held(&self.goods, register)))
            }
            Question::FreeMoney { member, account } => {
                let member = self.member(member)?;
                Ok(Reply::Limit(self.free_money(member, account)))
            }
            Question::FreeGoods { member, instrument } => {
                let stock = self.asked_stock(member, instrument)?;
                Ok(Reply::Limit(self.free_goods(stock)))
            }
            Question::Demand { member } => {
                let member = self.member(member)?;
                Ok(Reply::Sum(self.demand(member)))
            }
            Question::OrderOf { number } => {
                let live = self.section.order(number).ok_or(Refusal::OrderNotLive)?;
                Ok(Reply::TheOrder(live))
            }
            Question::ContractOf { number } => {
                let found = self
                    .section
                    .contract(number)
                    .ok_or(Refusal::ContractNotLive)?;
                Ok(Reply::TheContract(found.into()))
            }
        }
    }
}
