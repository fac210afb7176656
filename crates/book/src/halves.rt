// The halves of a day, as types: what a book takes is checked before any run.
ghost use Rattle.std.specs.Prelude.{◌≡◌};
ghost use Rattle.rules.specs.Limits.{Half, session, trading};
ghost use Rattle.rules.specs.Runs.{takes};

use rules::Call;

/// A half of the day.
pub trait HalfOfDay {
    ghost half: { Self → Half };
}

/// A half in which members take and the exchange trades.
pub trait TakesOrders: HalfOfDay {}

/// A half in which staff settle what was traded.
pub trait TakesEvents: HalfOfDay {}

/// Members bring, take and trade.
#[derive(Clone, Copy, Debug, PartialEq, Eq)]
pub struct Trading;

/// Staff settle what was traded.
#[derive(Clone, Copy, Debug, PartialEq, Eq)]
pub struct Session;

/// Either half: that of a book that goes from one to the other.
#[derive(Clone, Copy)]
pub(crate) enum AnyHalf {
    Trading,
    Session,
}

impl HalfOfDay for Trading {
    ghost half = { λ _. trading };
}

impl HalfOfDay for Session {
    ghost half = { λ _. session };
}

impl HalfOfDay for AnyHalf {
    ghost use Rattle.book.specs.Halves.{half_of};

    ghost half = { half_of };
}

impl TakesOrders for Trading {}

impl TakesOrders for AnyHalf {}

impl TakesEvents for Session {}

impl TakesEvents for AnyHalf {}

impl AnyHalf {
    ghost use Rattle.book.specs.Halves.{half_of};

    /// Whether this half of the day takes the call.
    pub(crate) fn takes(self, call: &Call) -> bool
        ensures { result ≡ takes (half_of self) call.now }
    {
        match call {
            Call::Deposit { .. } | Call::DepositGoods { .. } => true,
            Call::Settle { .. } | Call::EndSession => matches!(self, AnyHalf::Session),
            Call::Withdraw { .. }
            | Call::Shift { .. }
            | Call::WithdrawGoods { .. }
            | Call::Place(_)
            | Call::Cancel { .. }
            | Call::Execute(_)
            | Call::Rerate { .. }
            | Call::EndTrading => matches!(self, AnyHalf::Trading),
        }
    }
}
