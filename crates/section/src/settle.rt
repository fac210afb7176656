// What a contract does at funding, delivery and default.
ghost use Rattle.std.specs.Prelude.{◌≡◌, ◌≤◌, [], true};
ghost use Rattle.std.specs.Option.{option_map};
ghost use Rattle.rules.specs.Entries.{transfer};
ghost use Rattle.rules.specs.Holds.{payment_to_date};
ghost use Rattle.rules.specs.Limits.{session};
ghost use Rattle.rules.specs.Terms.{clearing_register, goods_register};
ghost use Rattle.rules.specs.declared.contracts.Contract.{Contract};
ghost use Rattle.rules.specs.declared.contracts.Event.TheVariants.{Default, Delivery, Funding};
ghost use Rattle.rules.specs.declared.contracts.State.TheVariants.{Funded, Unfunded};
ghost use Rattle.section.specs.Fits.{fit_contract, fit_row, heaviest};
ghost use Rattle.section.specs.Settling.{HasEffect, entry_of};
ghost use Rattle.section.specs.Views.{ledger_of, section_alone};

use crate::contracts::{buyer, buyer_charge, kilograms_open, seller, seller_charge, value};
use crate::members::{Stock, held};
use crate::section::Section;
use crate::settlement::{Effect, Transfer};
use charge::ChargeRule;
use keeper::Registers;
use rules::{Account, Contract, Event, Kind, MAX_REPORT, Refusal, Row, State};

/// Days after the delivery end in which goods can still be shipped; after them the seller has failed.
const SHIPPING_DAYS: u64 = 4;

/// A contract works out its own events.
pub(crate) trait Settle {
    ghost contract: { Self → Contract };

    /// What an event comes to today, or why it is refused, before the keepers are asked.
    fn settle<M: Registers, R: ChargeRule>(
        &self,
        section: &Section,
        rule: &R,
        money: &M,
        event: Event,
    ) -> Result<Effect, Refusal>
        requires { fit_contract (contract self.now) ≡ true }
        ensures { HasEffect
            (ledger_of session R.ChargeRule section.now rule.now (M.meaning money.now).amounts [])
            (contract self.now) event result };
}

impl Settle for Contract {
    ghost contract = { λ k. k };

    fn settle<M: Registers, R: ChargeRule>(
        &self,
        section: &Section,
        rule: &R,
        money: &M,
        event: Event,
    ) -> Result<Effect, Refusal> {
        match (self.state, event) {
            (State::Unfunded, Event::Funding) => fund(self, section, rule, money),
            (
                State::Funded {
                    kilograms,
                    payments,
                },
                Event::Delivery {
                    kilograms: reported,
                },
            ) => deliver(self, section, kilograms, payments, reported),
            (_, Event::Default) => default(self, section, rule, money),
            (State::Unfunded, Event::Delivery { .. }) | (State::Funded { .. }, Event::Funding) => {
                Err(Refusal::ContractState)
            }
        }
    }
}

/// An unfunded contract is funded: the whole of its value is due.
fn fund<M: Registers, R: ChargeRule>(
    contract: &Contract,
    section: &Section,
    rule: &R,
    money: &M,
) -> Result<Effect, Refusal>
    requires fit { fit_contract contract.now ≡ true }
    requires state { contract.now.state ≡ Unfunded }
    ensures { HasEffect
        (ledger_of session R.ChargeRule section.now rule.now (M.meaning money.now).amounts [])
        contract.now Funding result }
{
    if section.day > contract.funding {
        return Err(Refusal::WrongDay);
    }
    let due = value(contract);
    if section.free_money(rule, money, buyer(contract), Account::Clearing) < due as i64 {
        return Err(Refusal::FreeLimit);
    }
    Ok(Effect {
        state: Some(State::Funded {
            kilograms: 0,
            payments: 0,
        }),
        answers: due.into(),
        money: None,
        goods: None,
    })
}

/// A funded contract is delivered: at most the kilograms open are counted, and paid for as all so far less what was
/// paid before.
#[inline(always)]
fn deliver(
    contract: &Contract,
    section: &Section,
    kilograms: u64,
    payments: u64,
    reported: u64,
) -> Result<Effect, Refusal>
    requires fit { fit_contract contract.now ≡ true }
    requires state { contract.now.state ≡ Funded kilograms payments }
    ensures { HasEffect (section_alone section.now) contract.now (Delivery reported) result }
{
    if !(1..=MAX_REPORT).contains(&reported) {
        return Err(Refusal::BadValue);
    }
    let row = section.row_or_none(contract.instrument);
    let warehoused = matches!(row.kind, Kind::Warehouse);
    if !warehoused && section.day > contract.delivery + SHIPPING_DAYS {
        return Err(Refusal::WrongDay);
    }
    let open = kilograms_open(&row, contract);
    let counted = reported.min(open);
    let kilograms = kilograms + counted;
    let payment = payment_to_date(&row, contract.trade.price, kilograms).saturating_sub(payments);
    let next = State::Funded {
        kilograms,
        payments: payments + payment,
    };
    Ok(Effect {
        state: (counted < open).then_some(next),
        answers: (counted, payment).into(),
        money: payment_transfer(contract, payment),
        goods: if warehoused {
            goods_transfer(contract, counted)
        } else {
            None
        },
    })
}

/// A contract that one side failed ends, and that side's charge is paid to the other as far as its position register
/// goes: of the buyer, who was to fund it, and then of the seller, who was to ship it.
fn default<M: Registers, R: ChargeRule>(
    contract: &Contract,
    section: &Section,
    rule: &R,
    money: &M,
) -> Result<Effect, Refusal>
    requires { fit_contract contract.now ≡ true }
    ensures { HasEffect
        (ledger_of session R.ChargeRule section.now rule.now (M.meaning money.now).amounts [])
        contract.now Default result }
{
    let row = section.row_or_none(contract.instrument);
    let (failing, injured, penalty) = match contract.state {
        State::Unfunded => {
            if section.day <= contract.funding {
                return Err(Refusal::WrongDay);
            }
            let penalty = buyer_charge(rule, &row, contract);
            (buyer(contract), seller(contract), penalty)
        }
        State::Funded { .. } => {
            if matches!(row.kind, Kind::Warehouse) {
                return Err(Refusal::ContractState);
            }
            if section.day <= contract.delivery + SHIPPING_DAYS {
                return Err(Refusal::WrongDay);
            }
            let penalty = seller_charge(rule, &row, contract);
            (seller(contract), buyer(contract), penalty)
        }
    };
    let giver = failing.account(Account::Position);
    let receiver = injured.account(Account::Position);
    let paid = penalty.min(held(money, giver));
    Ok(Effect {
        state: None,
        answers: (paid, penalty - paid).into(),
        money: transfer(giver, receiver, paid),
        goods: None,
    })
}

/// What kilograms cost at a price for a lot, rounded down.
#[tactic(auto, unfolding(rules::specs::Holds::payment_to_date))]
fn payment_to_date(row: &Row, price: u64, kilograms: u64) -> u64
    requires price { price ≤ 1000000000 }
    requires kilograms { kilograms ≤ heaviest }
    ensures { result ≡ payment_to_date row.now price kilograms }
{
    (price * kilograms).checked_div(row.weight).unwrap_or(0)
}

/// The buyer pays the seller, both in clearing.
fn payment_transfer(contract: &Contract, payment: u64) -> Option<Transfer>
    requires { fit_contract contract.now ≡ true }
    ensures { option_map entry_of result
        ≡ transfer (clearing_register contract.now.buyer)
        (clearing_register contract.now.seller) payment }
{
    transfer(
        buyer(contract).account(Account::Clearing),
        seller(contract).account(Account::Clearing),
        payment,
    )
}

/// Goods in a warehouse go from the seller's register to the buyer's.
fn goods_transfer(contract: &Contract, kilograms: u64) -> Option<Transfer>
    requires { fit_contract contract.now ≡ true }
    ensures { option_map entry_of result
        ≡ transfer (goods_register contract.now.seller contract.now.instrument)
        (goods_register contract.now.buyer contract.now.instrument) kilograms }
{
    let sold = Stock {
        member: seller(contract),
        instrument: contract.instrument,
    };
    let bought = Stock {
        member: buyer(contract),
        instrument: contract.instrument,
    };
    transfer(sold.register(), bought.register(), kilograms)
}

/// A transfer of an amount; a sum of 0 makes none.
fn transfer(giver: usize, receiver: usize, amount: u64) -> Option<Transfer>
    ensures { option_map entry_of result ≡ transfer giver receiver amount }
{
    (amount > 0).then_some(Transfer {
        giver,
        receiver,
        amount,
    })
}
