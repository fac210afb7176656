// What the exchange brings to a trading book: orders, cancels, trades and ratings.
ghost use Rattle.std.specs.Prelude.{◌≡◌, count_by, OnErr};
ghost use Rattle.std.specs.List.{range_with_len};
ghost use Rattle.rules.specs.Limits.{is_short};
ghost use Rattle.rules.specs.declared.calls.Call.TheVariants.{Cancel, Execute, Place, Rerate};
ghost use Rattle.section.specs.Called.{answers_of_one, answers_of_two};
ghost use Rattle.book.specs.Calls.{Calls, ledger};

use crate::book::Book;
use crate::halves::{HalfOfDay, TakesOrders};
use crate::view::BookView;
use charge::ChargeRule;
use keeper::Keeper;
use rules::{Account, MAX_MEMBER, Order, Refusal, Trade};

impl<H: HalfOfDay, M: Keeper, G: Keeper, R: ChargeRule> Book<H, M, G, R> {
    /// Whether a known member has a demand above 0.
    fn is_short(&self, member: u64) -> bool
        ensures { result ≡ is_short (ledger ⟦<Self as BookView>⟧ self.now) member }
    {
        self.member(member)
            .is_ok_and(|member| self.free_money(member, Account::Position) < 0)
    }

    /// How many members have a demand above 0.
    fn short_members(&self) -> u64
        ensures { result
            ≡ count_by (is_short (ledger ⟦<Self as BookView>⟧ self.now)) (range_with_len 0 64) }
    {
        (0..MAX_MEMBER + 1)
            .filter(|member| self.is_short(*member))
            .count() as u64
    }
}

impl<H: TakesOrders, M: Keeper, G: Keeper, R: ChargeRule> Book<H, M, G, R> {
    /// Takes an order, and answers its hold.
    pub fn place(&mut self, order: Order) -> Result<u64, Refusal>
        ensures called { Calls ⟦<Self as BookView>⟧ self.old
            (Place order) (answers_of_one result) self.new }
        ensures err { OnErr result (self.new ≡ self.old) }
    {
        let Book {
            money,
            goods,
            rule,
            section,
            ..
        } = self;
        let hold = section.place(rule, money, goods, order)?;
        Ok(hold)
    }

    /// Takes a live order back, and answers its rest.
    pub fn cancel(&mut self, order: u64) -> Result<u64, Refusal>
        ensures called { Calls ⟦<Self as BookView>⟧ self.old
            (Cancel order) (answers_of_one result) self.new }
        ensures err { OnErr result (self.new ≡ self.old) }
    {
        self.section.cancel(order)
    }

    /// Trades lots of two live orders, and answers what the contract holds of the buyer's money and of the seller's.
    pub fn execute(&mut self, trade: Trade) -> Result<(u64, u64), Refusal>
        ensures called { Calls ⟦<Self as BookView>⟧ self.old
            (Execute trade) (answers_of_two result) self.new }
        ensures err { OnErr result (self.new ≡ self.old) }
    {
        let (of_buyer, of_seller) = self.section.execute(&self.rule, trade)?;
        Ok((of_buyer, of_seller))
    }

    /// Sets the rate of an instrument, which every hold then follows, and answers how many members have a demand.
    pub fn rerate(&mut self, instrument: u64, rate: u64) -> Result<u64, Refusal>
        ensures called { Calls ⟦<Self as BookView>⟧ self.old
            (Rerate instrument rate) (answers_of_one result) self.new }
        ensures err { OnErr result (self.new ≡ self.old) }
    {
        self.section.rerate(&self.rule, instrument, rate)?;
        Ok(self.short_members())
    }
}
