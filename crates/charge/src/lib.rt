// Charge rules: what a lot at a price costs to reserve, behind one interface.
#![tactic(auto)]

mod flat;
mod percent;
mod rule;

pub use flat::FlatRule;
pub use percent::PercentRule;
pub use rule::{ChargeRule, MAX_LOTS, MAX_PRICE};
