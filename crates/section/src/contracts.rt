// A contract's parties, what it costs, what it holds of their money and goods, and its kilograms. Its row comes beside
// it: only who keeps the rows can find it.
ghost use Rattle.std.specs.Prelude.{◌≡◌, ◌+◌, ◌-◌, ◌≤◌, true};
ghost use Rattle.charge.specs.Charges.{highest};
ghost use Rattle.rules.specs.Holds.{buyer_charge, delivered, due, full_weight, kilograms_held, seller_charge, value};
ghost use Rattle.section.specs.Fits.{dearest, fit_contract, fit_row, heaviest};

use crate::members::Member;
use charge::ChargeRule;
use rules::{Contract, Kind, Row, State};

/// The member who buys.
pub(crate) fn buyer(contract: &Contract) -> Member
    requires { fit_contract contract.now ≡ true }
    ensures { result.number ≡ contract.now.buyer }
{
    Member {
        number: contract.buyer,
    }
}

/// The member who sells.
pub(crate) fn seller(contract: &Contract) -> Member
    requires { fit_contract contract.now ≡ true }
    ensures { result.number ≡ contract.now.seller }
{
    Member {
        number: contract.seller,
    }
}

/// Until a contract is funded, the buyer's charge at his order's price.
pub(crate) fn buyer_charge<R: ChargeRule>(rule: &R, row: &Row, contract: &Contract) -> u64
    ensures value { result ≡ buyer_charge (R.charge rule.now) row.now contract.now }
    ensures bound { result ≤ highest }
{
    match contract.state {
        State::Unfunded => rule.charge(row.rate, contract.bid, contract.trade.lots),
        State::Funded { .. } => 0,
    }
}

/// If the seller ships, his charge at his order's price.
pub(crate) fn seller_charge<R: ChargeRule>(rule: &R, row: &Row, contract: &Contract) -> u64
    ensures value { result ≡ seller_charge (R.charge rule.now) row.now contract.now }
    ensures bound { result ≤ highest }
{
    match row.kind {
        Kind::Warehouse => 0,
        Kind::Shipment => rule.charge(row.rate, contract.ask, contract.trade.lots),
    }
}

/// What a whole contract costs.
pub(crate) fn value(contract: &Contract) -> u64
    requires { fit_contract contract.now ≡ true }
    ensures value { result ≡ value contract.now }
    ensures bound { result ≤ dearest }
{
    contract.trade.price * contract.trade.lots
}

/// Once a contract is funded, what is not yet paid.
pub(crate) fn due(contract: &Contract) -> u64
    requires { fit_contract contract.now ≡ true }
    ensures value { result ≡ due contract.now }
    ensures bound { result ≤ dearest }
{
    match contract.state {
        State::Unfunded => 0,
        State::Funded { payments, .. } => value(contract).saturating_sub(payments),
    }
}

/// Kilograms delivered so far.
fn delivered(contract: &Contract) -> u64
    ensures { result ≡ delivered contract.now.state }
{
    match contract.state {
        State::Unfunded => 0,
        State::Funded { kilograms, .. } => kilograms,
    }
}

/// The kilograms of a contract that are not yet delivered.
pub(crate) fn kilograms_open(row: &Row, contract: &Contract) -> u64
    requires row { fit_row row.now ≡ true }
    requires contract { fit_contract contract.now ≡ true }
    ensures value { result
        ≡ full_weight row.now contract.now.trade.lots - delivered contract.now.state }
    ensures bound { delivered contract.now.state + result ≤ heaviest }
{
    (contract.trade.lots * row.weight).saturating_sub(delivered(contract))
}

/// The goods that a contract holds: in a warehouse, the kilograms not delivered.
pub(crate) fn kilograms_held(row: &Row, contract: &Contract) -> u64
    requires row { fit_row row.now ≡ true }
    requires contract { fit_contract contract.now ≡ true }
    ensures value { result ≡ kilograms_held row.now contract.now }
    ensures bound { result ≤ heaviest }
{
    match row.kind {
        Kind::Warehouse => kilograms_open(row, contract),
        Kind::Shipment => 0,
    }
}
