// Finding a row, an order or a contract by its number.
ghost use Rattle.std.specs.Prelude.{◌≡◌, true, false, IfSome, MatchResult};
ghost use Rattle.std.specs.List.{Contains};
ghost use Rattle.rules.specs.Checks.{stored};
ghost use Rattle.rules.specs.Limits.{found_contract, found_order, has_row, row_of};
ghost use Rattle.rules.specs.Terms.{found_row};
ghost use Rattle.rules.specs.declared.refusals.Refusal.TheVariants.{NoInstrument};
ghost use Rattle.section.specs.Fits.{fit_contract, fit_order, fit_row};
ghost use Rattle.section.specs.Views.{section_alone, section_of};

use crate::members::{Member, Stock};
use crate::section::Section;
use rules::{Contract, Kind, LiveOrder, Refusal, Row};

/// The first of the rows with that number.
pub(crate) fn find(rows: &[Row], number: u64) -> Option<Row>
    ensures value { result ≡ found_row number rows.now }
    ensures listed { IfSome result (λ x. (x.number ≡ number) × Contains rows.now x) }
{
    rows.iter().find(|row| row.number == number).copied()
}

/// What stands for a row that is not there: the rules read it so, and it charges and weighs nothing.
const NO_ROW: Row = Row {
    number: 0,
    kind: Kind::Shipment,
    weight: 0,
    funding: 0,
    delivery: 0,
    rate: 0,
};

impl Section {
    /// The row in force for an instrument.
    pub fn row(&self, instrument: u64) -> Option<Row>
        ensures value { result ≡ found_row instrument (section_of self.now).rows }
        ensures fit { IfSome result (λ x. (x.number ≡ instrument) × (fit_row x ≡ true)) }
    {
        // Rows are mostly listed by their numbers, from 0 on.
        let at = instrument as usize;
        if at < self.rows.len() && self.rows[at].number == instrument {
            return Some(self.rows[at]);
        }
        find(self.rows.as_slice(), instrument)
    }

    /// The live order of that number.
    pub fn order(&self, number: u64) -> Option<LiveOrder>
        ensures value { result ≡ found_order number (section_of self.now).orders }
        ensures fit { IfSome result (λ x. (x.order.number ≡ number) × (fit_order x ≡ true)) }
    {
        self.orders.find(number)
    }

    /// The live contract of that number.
    pub fn contract(&self, number: u64) -> Option<Contract>
        ensures value { result ≡ found_contract number (section_of self.now).contracts }
        ensures fit { IfSome result (λ x. (x.trade.contract ≡ number) × (fit_contract x ≡ true)) }
    {
        self.contracts.find(number)
    }

    /// The row in force for an instrument, or one with nothing in it.
    pub(crate) fn row_or_none(&self, instrument: u64) -> Row
        ensures value { result ≡ row_of (section_of self.now).rows instrument }
        ensures fit { fit_row result ≡ true }
    {
        self.row(instrument).unwrap_or(NO_ROW)
    }

    /// A member's goods of an instrument that has a row.
    pub fn stock(&self, member: Member, instrument: u64) -> Result<Stock, Refusal>
        ensures { MatchResult result
            (λ s. (s.member ≡ member) × (s.instrument ≡ instrument)
            × (has_row (section_alone self.now) instrument ≡ true))
            (λ e. (e ≡ NoInstrument) × (has_row (section_alone self.now) instrument ≡ false)) }
    {
        self.row(instrument).ok_or(Refusal::NoInstrument)?;
        Ok(Stock { member, instrument })
    }

    /// A member's goods of an instrument whose goods are kept in a warehouse.
    pub fn warehoused_stock(&self, member: Member, instrument: u64) -> Result<Stock, Refusal>
        ensures { MatchResult result
            (λ s. (s.member ≡ member) × (s.instrument ≡ instrument)
            × (stored (section_alone self.now) instrument ≡ true))
            (λ e. (e ≡ NoInstrument) × (stored (section_alone self.now) instrument ≡ false)) }
    {
        match self.row(instrument) {
            Some(row) if matches!(row.kind, Kind::Warehouse) => Ok(Stock { member, instrument }),
            _ => Err(Refusal::NoInstrument),
        }
    }
}
