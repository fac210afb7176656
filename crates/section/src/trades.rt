// Trades of two live orders, and ratings.
ghost use Rattle.std.specs.Prelude.{◌≡◌, ◌<◌, true, map, IfOk, OnErr, vec_len, filter};
ghost use Rattle.rules.specs.Checks.{checks};
ghost use Rattle.rules.specs.Effects.{rerated};
ghost use Rattle.rules.specs.Orders.{contract_of, fills, has_rest, lowered_by, matching};
ghost use Rattle.rules.specs.Rulings.{Checked};
ghost use Rattle.rules.specs.declared.calls.Call.TheVariants.{Execute, Rerate};
ghost use Rattle.section.specs.Called.{SectionCalled, SectionChanged, answers_of_two};
ghost use Rattle.section.specs.Fits.{fit_contract};
ghost use Rattle.section.specs.Views.{section_alone, section_of, section_under};

use crate::contracts::{buyer_charge, seller_charge};
use crate::section::Section;
use charge::ChargeRule;
use rules::{Contract, LiveOrder, Order, Refusal, Row, Side, State, Trade};

/// Whether a buy and a sell of one instrument by two members allow a price.
fn is_match(buy: &Order, sell: &Order, price: u64) -> bool
    ensures { result ≡ matching buy.now sell.now price }
{
    matches!((buy.side, sell.side), (Side::Buy, Side::Sell))
        && buy.instrument == sell.instrument
        && buy.member != sell.member
        && (sell.price..=buy.price).contains(&price)
}

/// Whether both orders have so many lots left.
fn is_filled(lots: u64, buy: &LiveOrder, sell: &LiveOrder) -> bool
    ensures { result ≡ fills lots buy.now sell.now }
{
    lots >= 1 && lots <= buy.rest && lots <= sell.rest
}

/// Lowers an order's rest by a trade's lots, if the trade names it.
fn lower(live: &mut LiveOrder, trade: &Trade)
    ensures { live.new ≡ lowered_by trade.now live.old }
{
    if live.order.number == trade.buy || live.order.number == trade.sell {
        live.rest = live.rest.saturating_sub(trade.lots);
    }
}

/// Gives the rows of an instrument another rate.
fn set_rate(rows: &mut [Row], instrument: u64, rate: u64)
    ensures { rows.new ≡ map (rerated instrument rate) rows.old }
{
    for row in rows.iter_mut() {
        if row.number == instrument {
            row.rate = rate;
        }
    }
}

impl Section {
    /// The contract that a trade makes, or why it is refused.
    fn contract_of(&self, trade: Trade) -> Result<Contract, Refusal>
        ensures checked { Checked (checks (section_alone self.now) (Execute trade))
            (λ k. k ≡ contract_of (section_alone self.now) trade) result }
        ensures fit { IfOk result (λ k. fit_contract k ≡ true) }
        ensures trade { IfOk result (λ k. k.trade ≡ trade) }
        ensures number { IfOk result (λ _. self.now.contracts.last < trade.contract) }
        ensures room { IfOk result (λ _. vec_len self.now.contracts.items < 256) }
    {
        let buy = self.order(trade.buy).ok_or(Refusal::OrderNotLive)?;
        let sell = self.order(trade.sell).ok_or(Refusal::OrderNotLive)?;
        if !is_match(&buy.order, &sell.order, trade.price) {
            return Err(Refusal::Mismatch);
        }
        if !is_filled(trade.lots, &buy, &sell) {
            return Err(Refusal::BadLots);
        }
        if self.contracts.is_spent(trade.contract) {
            return Err(Refusal::ContractNumber);
        }
        if self.contracts.is_full() {
            return Err(Refusal::ContractsFull);
        }
        let row = self.row_or_none(buy.order.instrument);
        Ok(Contract {
            trade,
            instrument: buy.order.instrument,
            buyer: buy.order.member,
            seller: sell.order.member,
            bid: buy.order.price,
            ask: sell.order.price,
            funding: self.day + row.funding,
            delivery: self.day + row.delivery,
            state: State::Unfunded,
        })
    }

    /// Trades lots of two live orders, and answers what the new contract holds: of the buyer's money, and of the
    /// seller's.
    pub fn execute<R: ChargeRule>(&mut self, rule: &R, trade: Trade) -> Result<(u64, u64), Refusal>
        ensures called { SectionCalled
            (section_under R.ChargeRule self.old rule.now) (Execute trade)
            (answers_of_two result) (section_of self.new) }
        ensures err { OnErr result (self.new ≡ self.old) }
    {
        let contract = self.contract_of(trade)?;
        let row = self.row_or_none(contract.instrument);
        let of_buyer = buyer_charge(rule, &row, &contract);
        let of_seller = seller_charge(rule, &row, &contract);
        self.fill(trade);
        self.contracts.push(contract);
        Ok((of_buyer, of_seller))
    }

    /// Lowers the rests of a trade's two orders; an order with no rest ends.
    fn fill(&mut self, trade: Trade)
        ensures orders { self.new.orders.items.items
            ≡ filter has_rest (map (lowered_by trade) self.old.orders.items.items) }
        ensures last { self.new.orders.last ≡ self.old.orders.last }
        ensures day { self.new.day ≡ self.old.day }
        ensures rows { self.new.rows ≡ self.old.rows }
        ensures contracts { self.new.contracts ≡ self.old.contracts }
    {
        self.orders.items.retain_mut(|live| {
            lower(live, &trade);
            live.rest > 0
        });
    }

    /// Sets the rate of an instrument. Every hold follows it.
    pub fn rerate<R: ChargeRule>(
        &mut self,
        rule: &R,
        instrument: u64,
        rate: u64,
    ) -> Result<(), Refusal>
        ensures called { SectionChanged
            (section_under R.ChargeRule self.old rule.now) (Rerate instrument rate)
            result (section_of self.new) }
        ensures err { OnErr result (self.new ≡ self.old) }
    {
        self.row(instrument).ok_or(Refusal::NoInstrument)?;
        if rate > rule.top() {
            return Err(Refusal::BadValue);
        }
        set_rate(&mut self.rows, instrument, rate);
        Ok(())
    }
}
