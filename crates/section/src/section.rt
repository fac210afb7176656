// What a section has besides its keepers.
ghost use Rattle.std.specs.Prelude.{◌≤◌};
ghost use Rattle.std.specs.List.{AllPass};
ghost use Rattle.section.specs.Fits.{fit_contract, fit_order, fit_row};
ghost use Rattle.section.specs.Numbers.{Distinct, Rising};

use crate::live::Live;
use rules::{Contract, LiveOrder, Row};

/// The day, the rows in force, and what is live.
#[derive(Drop)]
pub struct Section {
    pub(crate) day: u64,
    pub(crate) rows: Vec<Row>,
    pub(crate) orders: Live<LiveOrder>,
    pub(crate) contracts: Live<Contract>,
    ghost early: { day ≤ 36500 },
    ghost listed: { AllPass fit_row rows.items },
    ghost distinct: { Distinct (λ r. r.number) rows.items },
    ghost sized: { AllPass fit_order orders.items.items },
    ghost priced: { AllPass fit_contract contracts.items.items },
    ghost orders_rise: { Rising (λ o. o.order.number) orders.items.items orders.last },
    ghost contracts_rise: { Rising (λ k. k.trade.contract) contracts.items.items contracts.last },
}
