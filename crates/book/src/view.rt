// What is seen of a book.
ghost use Rattle.rules.specs.Entries.{Entries};
ghost use Rattle.rules.specs.Runs.{Snapshot};

use crate::book::Book;
use crate::halves::HalfOfDay;
use charge::ChargeRule;
use keeper::Keeper;

/// What is seen of a book: its ledger, and what its two keepers mean beside it.
// No Model: a snapshot holds functions, the charge and the needs, and a Model's value holds none.
pub trait BookView {
    ghost snapshot: { Self → Snapshot };

    // The keepers of one book go on, as their types do, by entries that the ledger makes, to those of another.
    ghost goes: { Self → Entries → Self → Type 0 };
}

impl<H: HalfOfDay, M: Keeper, G: Keeper, R: ChargeRule> BookView for Book<H, M, G, R> {
    ghost use Rattle.rules.specs.Runs.{KeepersGoOn};
    ghost use Rattle.book.specs.Views.{keepers_of, snapshot_of};

    ghost snapshot = { λ b. snapshot_of (H.half b.half) M.Registers G.Registers R.ChargeRule b };

    ghost goes = { λ b es b'.
        KeepersGoOn M.Registers G.Registers (keepers_of b) es (keepers_of b') };
}
