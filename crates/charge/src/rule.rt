// The interface of a charge rule.
ghost use Rattle.std.specs.Prelude.{◌≡◌, ℕ, ◌+◌, ◌≤◌, false};
ghost use Rattle.charge.specs.Charges.{Charge, chargeable, highest};

/// What is to be reserved for lots at a price, by a rate up to a top.
pub trait ChargeRule {
    ghost top: { Self → ℕ };

    ghost charge: { Self → Charge };

    fn top(&self) -> u64
        ensures { result ≡ top self.now };

    // Three numbers: each caller has them from three places, and a struct would only be filled and taken apart.
    fn charge(&self, rate: u64, price: u64, lots: u64) -> u64
        ensures { result ≡ charge self.now rate price lots };

    ghost none: { (r : Self) (rate price lots : ℕ)
        → chargeable (top r) rate price lots ≡ false → charge r rate price lots ≡ 0 };

    ghost bounded: { (r : Self) (rate price lots : ℕ) → charge r rate price lots ≤ highest };

    ghost splits: { (r : Self) (rate price a b : ℕ)
        → a + b ≤ 10000
        → charge r rate price a + charge r rate price b ≤ charge r rate price (a + b) };
}

/// A rule that is lent is a rule.
impl<R: ChargeRule> ChargeRule for &R {
    ghost top = { λ r. R.top r.now };

    ghost charge = { λ r. R.charge r.now };

    ghost none = { λ r. R.none r.now };

    ghost bounded = { λ r. R.bounded r.now };

    ghost splits = { λ r. R.splits r.now };

    fn top(&self) -> u64 {
        R::top(self)
    }

    fn charge(&self, rate: u64, price: u64, lots: u64) -> u64 {
        R::charge(self, rate, price, lots)
    }
}

/// The highest price that is charged for, in kopecks for a lot.
pub const MAX_PRICE: u64 = 1_000_000_000;

/// The most lots that are charged for.
pub const MAX_LOTS: u64 = 10_000;

/// Whether rate, price and lots are within their limits. Each rule asks before it multiplies: no product overflows.
pub(crate) fn is_chargeable(top: u64, rate: u64, price: u64, lots: u64) -> bool
    ensures { result ≡ chargeable top rate price lots }
{
    rate <= top && (1..=MAX_PRICE).contains(&price) && (1..=MAX_LOTS).contains(&lots)
}
