// A section opens with the rows that can be used.
ghost use Rattle.std.specs.Prelude.{◌≡◌, IfOk};
ghost use Rattle.std.specs.List.{AllPass};
ghost use Rattle.rules.specs.Terms.{admits, good_row, in_force};
ghost use Rattle.section.specs.Fits.{fit_row};
ghost use Rattle.section.specs.Numbers.{Distinct};
ghost use Rattle.section.specs.Views.{opened_section, section_of};

use crate::finding::find;
use crate::live::Live;
use crate::section::Section;
use charge::ChargeRule;
use rules::{MAX_DELIVERY_DAYS, MAX_INSTRUMENT, MAX_LOT_WEIGHT, Row};
use std::alloc::{AllocError, Global};

/// Whether a row's values are within their limits, under a top rate.
fn is_good(row: &Row, top: u64) -> bool
    ensures { result ≡ good_row top row.now }
{
    row.number <= MAX_INSTRUMENT
        && (1..=MAX_LOT_WEIGHT).contains(&row.weight)
        && row.funding <= row.delivery
        && row.delivery <= MAX_DELIVERY_DAYS
        && row.rate <= top
}

/// Whether a row is taken into the rows listed so far.
fn is_admitted(listed: &[Row], row: &Row, top: u64) -> bool
    ensures { result ≡ admits top listed.now row.now }
{
    is_good(row, top) && find(listed, row.number).is_none()
}

/// The rows that can be used: no bad row, and the first of those with one number.
fn rows_in_force(heap: Global, rows: &[Row], top: u64) -> Result<Vec<Row>, AllocError>
    ensures rows { IfOk result (λ v. v.items ≡ in_force top rows.now) }
    ensures fit { IfOk result (λ v. AllPass fit_row v.items) }
    ensures distinct { IfOk result (λ v. Distinct (λ r. r.number) v.items) }
{
    // No more can be in force than there are numbers, however long the list is.
    let most = MAX_INSTRUMENT as usize + 1;
    let mut listed: Vec<Row> = Vec::with_capacity(heap, rows.len().min(most))?;
    for row in rows {
        if is_admitted(listed.as_slice(), row, top) {
            listed.push(*row)?;
        }
    }
    Ok(listed)
}

impl Section {
    /// Opens on day 0: skips a bad row, and a row whose number has one already. Memory for all that may come is
    /// taken here.
    pub fn open<R: ChargeRule>(heap: Global, rule: &R, rows: &[Row]) -> Result<Section, AllocError>
        ensures { IfOk result
            (λ d. section_of d ≡ opened_section (in_force (R.top rule.now) rows.now)) }
    {
        let orders = Live::open(heap)?;
        let contracts = Live::open(heap)?;
        let rows = rows_in_force(heap, rows, rule.top())?;
        Ok(Section {
            day: 0,
            rows,
            orders,
            contracts,
        })
    }
}
