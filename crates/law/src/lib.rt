// Every run of the ledger keeps the law of whole runs.
#![tactic(auto)]

ghost use Rattle.law.specs.Lawful.{LawfulFrom, RunsAreLawful};
ghost use Rattle.law.specs.Lent.{JournalsLast, KeepersTakeEntries, TablesLast};

use charge::ChargeRule;
use keeper::{JournalKeeper, Registers, TableKeeper};

/// Every run from a start with a fair charge keeps the law.
pub fn runs_are_lawful()
    ensures { RunsAreLawful }
{}

/// Every run that these keepers and this rule begin keeps the law, whatever the rows.
pub fn lawful_from<M: Registers, G: Registers, R: ChargeRule>(money: &M, goods: &G, rule: &R)
    ensures { LawfulFrom M.Registers G.Registers R.ChargeRule money.now goods.now rule.now }
{}

/// Over a run both keepers, of these types, accept the ledger's entries, one for one, and end with its amounts.
pub fn keepers_take_entries<M: Registers, G: Registers>(_money: &M, _goods: &G)
    ensures { KeepersTakeEntries M.Registers G.Registers }
{}

/// After entries the list lent to a table has the amounts in its first places, and beyond them what was there.
pub fn tables_last<'a>(_table: &TableKeeper<'a>)
    ensures { TablesLast ⟦<TableKeeper<'a> as Registers>⟧ }
{}

/// After entries the list lent to a journal has them in sequence after those written before, and else what was there.
pub fn journals_last<'a>(_journal: &JournalKeeper<'a>)
    ensures { JournalsLast ⟦<JournalKeeper<'a> as Registers>⟧ }
{}
