// The flat rule.
ghost use Rattle.charge.specs.Charges.{flat, flat_top};
ghost use Rattle.charge.specs.Lots.{lots_none, lots_bounded, rate_bounded, lots_split};

use crate::rule::{ChargeRule, is_chargeable};

/// The rate is the charge for one lot, whatever its price.
#[derive(Clone, Copy, Debug, PartialEq, Eq)]
pub struct FlatRule;

/// The top rate.
const MAX_RATE: u64 = 1_000_000_000;

impl ChargeRule for FlatRule {
    ghost top = { λ _. flat_top };

    ghost charge = { λ _. flat };

    ghost none = { λ r rate price lots h. lots_none flat_top rate rate price lots h };

    ghost bounded = { λ r rate price lots.
        lots_bounded flat_top rate rate price lots (rate_bounded rate price lots) };

    ghost splits = { λ r rate price a b h. lots_split flat_top rate rate price a b h };

    fn top(&self) -> u64 {
        MAX_RATE
    }

    fn charge(&self, rate: u64, price: u64, lots: u64) -> u64 {
        if !is_chargeable(MAX_RATE, rate, price, lots) {
            return 0;
        }
        rate * lots
    }
}
