// What an event of a contract comes to, before the keepers are asked.
ghost use Rattle.std.specs.Prelude.{◌≡◌, true};
ghost use Rattle.section.specs.Fits.{fit_next};

use keeper::Entry;
use rules::{Answers, State};

/// An amount that is to go from one register of a keeper to another.
#[derive(Clone, Copy, Debug, PartialEq, Eq)]
pub struct Transfer {
    pub giver: usize,
    pub receiver: usize,
    pub amount: u64,
}

impl From<Transfer> for Entry {
    ghost use Rattle.section.specs.Settling.{entry_of};

    ghost from_gives = { λ t e. e ≡ entry_of t };

    fn from(transfer: Transfer) -> Entry {
        Entry::Transfer {
            giver: transfer.giver,
            receiver: transfer.receiver,
            amount: transfer.amount,
        }
    }
}

/// The effect of an event on its contract, its answers, and what it moves.
#[derive(Clone, Copy, Debug, PartialEq, Eq)]
pub struct Effect {
    /// The contract's next state; none where it ends.
    pub state: Option<State>,
    pub answers: Answers,
    /// What is to go from register to register at the money keeper.
    pub money: Option<Transfer>,
    /// And at the goods keeper.
    pub goods: Option<Transfer>,
    ghost fit: { fit_next state ≡ true },
}

/// An event of a live contract, by the contract's number.
#[derive(Clone, Copy, Debug, PartialEq, Eq)]
pub struct Settlement {
    pub number: u64,
    pub effect: Effect,
    /// The index at which the contract was found; with any other it is searched for again.
    pub at: usize,
}
