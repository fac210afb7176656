// The posting of an entry at one of the two keepers.
ghost use Rattle.std.specs.Prelude.{◌≡◌};
ghost use Rattle.rules.specs.declared.refusals.Refusal.TheVariants as refusals;
ghost use Rattle.book.specs.Entered.{Entered, EnteredAs, Posts};

use crate::book::Book;
use keeper::{Entry, Keeper};
use rules::{EntryFault, Refusal};
use section::held;

/// Posts an entry; a fault comes with the register that the entry names.
pub(crate) fn post<K: Keeper>(keeper: &mut K, entry: Entry) -> Result<(), EntryFault>
    ensures { Posts K.Registers keeper.old entry result keeper.new }
{
    let register = entry.register();
    keeper
        .post(entry)
        .map_err(|fault| EntryFault { fault, register })
}

/// Posts an entry, and answers what is then in the register that it names.
fn enter<K: Keeper>(keeper: &mut K, entry: Entry) -> Result<u64, EntryFault>
    ensures { Entered K.Registers keeper.old entry result keeper.new }
{
    post(keeper, entry)?;
    Ok(held(keeper, entry.register()))
}

impl<H, M: Keeper, G: Keeper, R> Book<H, M, G, R> {
    /// Posts an entry of money, and answers what is then in the register that it names.
    pub(crate) fn enter_money(&mut self, entry: Entry) -> Result<u64, Refusal>
        ensures entered { EnteredAs M.Registers refusals.Money
            self.old.money entry result self.new.money }
        ensures rest { self.new ≡ record self.old { money = self.new.money } }
    {
        enter(&mut self.money, entry).map_err(Refusal::Money)
    }

    /// Posts an entry of goods, likewise.
    pub(crate) fn enter_goods(&mut self, entry: Entry) -> Result<u64, Refusal>
        ensures entered { EnteredAs G.Registers refusals.Goods
            self.old.goods entry result self.new.goods }
        ensures rest { self.new ≡ record self.old { goods = self.new.goods } }
    {
        enter(&mut self.goods, entry).map_err(Refusal::Goods)
    }
}
