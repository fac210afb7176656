// The percent rule.
ghost use Rattle.charge.specs.Charges.{percent, percent_top, percent_of};
ghost use Rattle.charge.specs.Lots.{lots_none, lots_bounded, percent_bounded, lots_split};

use crate::rule::{ChargeRule, is_chargeable};

/// The rate is in hundredths of a percent of the price: each lot's charge is rounded up.
#[derive(Clone, Copy, Debug, PartialEq, Eq)]
pub struct PercentRule;

/// The top rate.
const MAX_RATE: u64 = 10_000;

impl ChargeRule for PercentRule {
    ghost top = { λ _. percent_top };

    ghost charge = { λ _. percent };

    ghost none = { λ r rate price lots h. lots_none percent_top (percent_of rate price) rate price lots h };

    ghost bounded = { λ r rate price lots.
        lots_bounded percent_top (percent_of rate price) rate price lots
        (percent_bounded rate price lots) };

    ghost splits = { λ r rate price a b h. lots_split percent_top (percent_of rate price) rate price a b h };

    fn top(&self) -> u64 {
        MAX_RATE
    }

    fn charge(&self, rate: u64, price: u64, lots: u64) -> u64 {
        if !is_chargeable(MAX_RATE, rate, price, lots) {
            return 0;
        }
        let each = (price * rate).div_ceil(10_000);
        each * lots
    }
}
