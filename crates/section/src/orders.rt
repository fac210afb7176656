// Orders and their cancels.
ghost use Rattle.std.specs.Prelude.{◌≡◌, ◌<◌, ◌≤◌, true, IfOk, OnErr, vec_len};
ghost use Rattle.charge.specs.Charges.{highest};
ghost use Rattle.rules.specs.Checks.{checks, order_terms};
ghost use Rattle.rules.specs.Limits.{row_of, trading};
ghost use Rattle.rules.specs.Orders.{is_before, order_hold, order_limit, unfilled};
ghost use Rattle.rules.specs.Rulings.{Checked};
ghost use Rattle.rules.specs.Terms.{good_order};
ghost use Rattle.rules.specs.declared.calls.Call.TheVariants.{Cancel, Place};
ghost use Rattle.section.specs.Called.{SectionCalled, answers_of_one, hold_of};
ghost use Rattle.section.specs.Fits.{fit_order, fit_row};
ghost use Rattle.section.specs.Views.{ledger_of, section_alone, section_of, section_under};

use crate::holds::{is_in_goods, order_goods, order_money};
use crate::members::{Member, Stock};
use crate::section::Section;
use charge::ChargeRule;
use keeper::Registers;
use rules::{Account, LiveOrder, MAX_DAY, MAX_LOTS, MAX_PRICE, Order, Refusal, Row};

/// An order as it comes to life: no lot of it is traded.
fn unfilled(order: Order) -> LiveOrder
    ensures { result ≡ unfilled order }
{
    LiveOrder {
        order,
        rest: order.lots,
    }
}

/// Whether price, lots and last day are within their limits.
fn is_good(order: &Order) -> bool
    ensures { result ≡ good_order order.now }
{
    (1..=MAX_PRICE).contains(&order.price)
        && (1..=MAX_LOTS).contains(&order.lots)
        && order.last.is_none_or(|last| last <= MAX_DAY)
}

/// Whether an order's last day is before a day.
fn is_past(order: &Order, day: u64) -> bool
    ensures { result ≡ is_before order.now.last day }
{
    order.last.is_some_and(|last| last < day)
}

/// What an order would hold of its member's.
fn order_hold<R: ChargeRule>(rule: &R, row: &Row, order: &Order) -> u64
    requires row { fit_row row.now ≡ true }
    requires order { fit_order (unfilled order.now) ≡ true }
    ensures value { result ≡ hold_of (R.charge rule.now) row.now order.now }
    ensures bound { result ≤ highest }
{
    let live = unfilled(*order);
    if is_in_goods(row, order) {
        order_goods(row, &live)
    } else {
        order_money(rule, row, &live)
    }
}

impl Section {
    /// The row of an order's instrument, or what the section refuses the order for.
    fn check_terms(&self, order: &Order) -> Result<Row, Refusal>
        ensures checked { Checked (order_terms (section_alone self.now) order.now)
            (λ row. row ≡ row_of (section_of self.now).rows order.now.instrument) result }
        ensures fit_row { IfOk result (λ row. fit_row row ≡ true) }
        ensures instrument { IfOk result (λ _. order.now.instrument ≤ 15) }
        ensures good { IfOk result (λ _. good_order order.now ≡ true) }
        ensures number { IfOk result (λ _. self.now.orders.last < order.now.number) }
        ensures room { IfOk result (λ _. vec_len self.now.orders.items < 256) }
    {
        let row = self.row(order.instrument).ok_or(Refusal::NoInstrument)?;
        if !is_good(order) {
            return Err(Refusal::BadValue);
        }
        if is_past(order, self.day) {
            return Err(Refusal::PastDay);
        }
        if self.orders.is_spent(order.number) {
            return Err(Refusal::OrderNumber);
        }
        if self.orders.is_full() {
            return Err(Refusal::OrdersFull);
        }
        Ok(row)
    }

    /// The free limit that an order would take from.
    fn order_limit<M: Registers, G: Registers, R: ChargeRule>(
        &self,
        rule: &R,
        money: &M,
        goods: &G,
        member: Member,
        row: &Row,
        order: &Order,
    ) -> i64
        requires member { member.number ≡ order.now.member }
        requires row { row.now ≡ row_of (section_of self.now).rows order.now.instrument }
        requires instrument { order.now.instrument ≤ 15 }
        ensures { result ≡ order_limit
            (ledger_of trading R.ChargeRule self.now rule.now (M.meaning money.now).amounts
            (G.meaning goods.now).amounts)
            order.now }
    {
        if is_in_goods(row, order) {
            let stock = Stock {
                member,
                instrument: order.instrument,
            };
            self.free_goods(goods, stock)
        } else {
            self.free_money(rule, money, member, Account::Position)
        }
    }

    /// What an order would hold, or why it is refused.
    fn admit<M: Registers, G: Registers, R: ChargeRule>(
        &self,
        rule: &R,
        money: &M,
        goods: &G,
        order: &Order,
    ) -> Result<u64, Refusal>
        ensures checked { Checked
            (checks
            (ledger_of trading R.ChargeRule self.now rule.now (M.meaning money.now).amounts
            (G.meaning goods.now).amounts)
            (Place order.now))
            (λ hold. hold ≡ order_hold (section_under R.ChargeRule self.now rule.now) order.now)
            result }
        ensures fit { IfOk result (λ _. fit_order (unfilled order.now) ≡ true) }
        ensures number { IfOk result (λ _. self.now.orders.last < order.now.number) }
        ensures room { IfOk result (λ _. vec_len self.now.orders.items < 256) }
    {
        let member = Member::known(money, goods, order.member)?;
        let row = self.check_terms(order)?;
        let hold = order_hold(rule, &row, order);
        if self.order_limit(rule, money, goods, member, &row, order) < hold as i64 {
            return Err(Refusal::FreeLimit);
        }
        Ok(hold)
    }

    /// Takes a new order, all its lots as rest, and answers its hold.
    pub fn place<M: Registers, G: Registers, R: ChargeRule>(
        &mut self,
        rule: &R,
        money: &M,
        goods: &G,
        order: Order,
    ) -> Result<u64, Refusal>
        ensures called { SectionCalled
            (ledger_of trading R.ChargeRule self.old rule.now (M.meaning money.now).amounts
            (G.meaning goods.now).amounts)
            (Place order) (answers_of_one result) (section_of self.new) }
        ensures err { OnErr result (self.new ≡ self.old) }
    {
        let hold = self.admit(rule, money, goods, &order)?;
        self.orders.push(unfilled(order));
        Ok(hold)
    }

    /// Takes a live order back, and answers its rest.
    pub fn cancel(&mut self, number: u64) -> Result<u64, Refusal>
        ensures called { SectionCalled (section_alone self.old) (Cancel number)
            (answers_of_one result) (section_of self.new) }
        ensures err { OnErr result (self.new ≡ self.old) }
    {
        let at = self.orders.index_of(number).ok_or(Refusal::OrderNotLive)?;
        let live = self.orders.end(at);
        Ok(live.rest)
    }
}
