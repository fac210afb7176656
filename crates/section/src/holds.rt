// What live orders and contracts hold of a member's registers.
ghost use Rattle.std.specs.Prelude.{◌≡◌, ◌≤◌, true};
ghost use Rattle.std.specs.List.{sum_by};
ghost use Rattle.charge.specs.Charges.{highest};
ghost use Rattle.rules.specs.Holds.{holds_goods, order_goods, order_money};
ghost use Rattle.rules.specs.Limits.{clearing_holds, contract_on_clearing, contract_on_goods, contract_on_position, goods_holds, order_on_goods, order_on_position, position_holds};
ghost use Rattle.section.specs.Fits.{fit_contract, fit_order, fit_row, heaviest, most_held, most_of_list, most_of_one};
ghost use Rattle.section.specs.Views.{section_alone, section_of, section_under};

use crate::contracts::{buyer_charge, due, kilograms_held, seller_charge};
use crate::section::Section;
use charge::ChargeRule;
use rules::{Contract, Kind, LiveOrder, Order, Row, Side};

/// Whether an order holds goods: a sell in a warehouse does, and every other holds money.
pub(crate) fn is_in_goods(row: &Row, order: &Order) -> bool
    ensures { result ≡ holds_goods row.now.kind order.now.side }
{
    matches!((row.kind, order.side), (Kind::Warehouse, Side::Sell))
}

/// The charge that an order holds, at its price for its rest; a sell in a warehouse holds none.
pub(crate) fn order_money<R: ChargeRule>(rule: &R, row: &Row, live: &LiveOrder) -> u64
    ensures value { result ≡ order_money (R.charge rule.now) row.now live.now }
    ensures bound { result ≤ highest }
{
    if is_in_goods(row, &live.order) {
        return 0;
    }
    rule.charge(row.rate, live.order.price, live.rest)
}

/// The goods that an order holds: the weight of its rest, for a sell in a warehouse.
pub(crate) fn order_goods(row: &Row, live: &LiveOrder) -> u64
    requires row { fit_row row.now ≡ true }
    requires order { fit_order live.now ≡ true }
    ensures value { result ≡ order_goods row.now live.now }
    ensures bound { result ≤ heaviest }
{
    if !is_in_goods(row, &live.order) {
        return 0;
    }
    live.rest * row.weight
}

/// What a contract holds of a member's clearing register.
fn contract_on_clearing(member: u64, contract: &Contract) -> u64
    requires { fit_contract contract.now ≡ true }
    ensures value { result ≡ contract_on_clearing member contract.now }
    ensures bound { result ≤ most_of_one }
{
    if contract.buyer != member {
        return 0;
    }
    due(contract)
}

impl Section {
    /// What a contract holds of a member's position register, as its buyer and as its seller.
    fn contract_on_position<R: ChargeRule>(&self, rule: &R, member: u64, contract: &Contract) -> u64
        ensures value { result
            ≡ contract_on_position (section_under R.ChargeRule self.now rule.now) member
            contract.now }
        ensures bound { result ≤ most_of_one }
    {
        let row = self.row_or_none(contract.instrument);
        let of_buyer = if contract.buyer == member {
            buyer_charge(rule, &row, contract)
        } else {
            0
        };
        let of_seller = if contract.seller == member {
            seller_charge(rule, &row, contract)
        } else {
            0
        };
        of_buyer + of_seller
    }

    /// What an order holds of a member's goods register for an instrument.
    fn order_on_goods(&self, member: u64, instrument: u64, live: &LiveOrder) -> u64
        requires { fit_order live.now ≡ true }
        ensures value { result
            ≡ order_on_goods (section_alone self.now) member instrument live.now }
        ensures bound { result ≤ most_of_one }
    {
        if live.order.member != member || live.order.instrument != instrument {
            return 0;
        }
        order_goods(&self.row_or_none(instrument), live)
    }

    /// What a contract holds of a member's goods register for an instrument.
    fn contract_on_goods(&self, member: u64, instrument: u64, contract: &Contract) -> u64
        requires { fit_contract contract.now ≡ true }
        ensures value { result
            ≡ contract_on_goods (section_alone self.now) member instrument contract.now }
        ensures bound { result ≤ most_of_one }
    {
        if contract.seller != member || contract.instrument != instrument {
            return 0;
        }
        kilograms_held(&self.row_or_none(instrument), contract)
    }

    // Each list by itself, so that no sum of a whole list can overflow; their tests and holds differ.

    fn orders_on_position<R: ChargeRule>(&self, rule: &R, member: u64) -> u64
        ensures value { result ≡ sum_by
            (order_on_position (section_under R.ChargeRule self.now rule.now) member)
            (section_of self.now).orders }
        ensures bound { result ≤ most_of_list }
    {
        self.orders
            .items
            .iter()
            .filter(|live| live.order.member == member)
            .map(|live| order_money(rule, &self.row_or_none(live.order.instrument), live))
            .sum()
    }

    fn contracts_on_position<R: ChargeRule>(&self, rule: &R, member: u64) -> u64
        ensures value { result ≡ sum_by
            (contract_on_position (section_under R.ChargeRule self.now rule.now) member)
            (section_of self.now).contracts }
        ensures bound { result ≤ most_of_list }
    {
        self.contracts
            .items
            .iter()
            // By `|`, one branch for both parties: it is faster.
            .filter(|contract| (contract.buyer == member) | (contract.seller == member))
            .map(|contract| self.contract_on_position(rule, member, contract))
            .sum()
    }

    /// All that is held of a member's position register.
    pub(crate) fn position_holds<R: ChargeRule>(&self, rule: &R, member: u64) -> u64
        ensures value { result
            ≡ position_holds (section_under R.ChargeRule self.now rule.now) member }
        ensures bound { result ≤ most_held }
    {
        self.orders_on_position(rule, member) + self.contracts_on_position(rule, member)
    }

    /// All that is held of a member's clearing register.
    pub(crate) fn clearing_holds(&self, member: u64) -> u64
        ensures value { result ≡ clearing_holds (section_alone self.now) member }
        ensures bound { result ≤ most_held }
    {
        self.contracts
            .items
            .iter()
            .map(|contract| contract_on_clearing(member, contract))
            .sum()
    }

    fn orders_on_goods(&self, member: u64, instrument: u64) -> u64
        ensures value { result
            ≡ sum_by (order_on_goods (section_alone self.now) member instrument)
            (section_of self.now).orders }
        ensures bound { result ≤ most_of_list }
    {
        self.orders
            .items
            .iter()
            .map(|live| self.order_on_goods(member, instrument, live))
            .sum()
    }

    fn contracts_on_goods(&self, member: u64, instrument: u64) -> u64
        ensures value { result
            ≡ sum_by (contract_on_goods (section_alone self.now) member instrument)
            (section_of self.now).contracts }
        ensures bound { result ≤ most_of_list }
    {
        self.contracts
            .items
            .iter()
            .map(|contract| self.contract_on_goods(member, instrument, contract))
            .sum()
    }

    /// All that is held of a member's goods register for an instrument.
    pub(crate) fn goods_holds(&self, member: u64, instrument: u64) -> u64
        ensures value { result ≡ goods_holds (section_alone self.now) member instrument }
        ensures bound { result ≤ most_held }
    {
        self.orders_on_goods(member, instrument) + self.contracts_on_goods(member, instrument)
    }
}
