// Events of the live contracts.
ghost use Rattle.std.specs.Prelude.{◌≡◌, []};
ghost use Rattle.rules.specs.Effects.{settled, with_contracts};
ghost use Rattle.rules.specs.Limits.{session};
ghost use Rattle.section.specs.Settling.{Settles};
ghost use Rattle.section.specs.Views.{ledger_of, section_of};

use crate::section::Section;
use crate::settle::Settle;
use crate::settlement::Settlement;
use charge::ChargeRule;
use keeper::Registers;
use rules::{Contract, Event, Refusal};

impl Section {
    /// What an event of a live contract comes to today, or why it is refused, before the keepers are asked.
    pub fn settle<M: Registers, R: ChargeRule>(
        &self,
        rule: &R,
        money: &M,
        contract: u64,
        event: Event,
    ) -> Result<Settlement, Refusal>
        ensures { Settles
            (ledger_of session R.ChargeRule self.now rule.now (M.meaning money.now).amounts [])
            contract event result }
    {
        let at = self
            .contracts
            .index_of(contract)
            .ok_or(Refusal::ContractNotLive)?;
        let effect = self.contracts.items[at].settle(self, rule, money, event)?;
        Ok(Settlement {
            number: contract,
            effect,
            at,
        })
    }

    /// Brings a contract into its next state, or ends it.
    pub fn apply(&mut self, settlement: Settlement)
        ensures { section_of self.new
            ≡ with_contracts (section_of self.old)
            (settled settlement.number settlement.effect.state
            (section_of self.old).contracts) }
    {
        let Some(at) = self.contracts.index_near(settlement.at, settlement.number) else {
            return;
        };
        match settlement.effect.state {
            Some(state) => {
                let contract = self.contracts.items[at];
                self.contracts.replace(at, Contract { state, ..contract });
            }
            None => {
                self.contracts.end(at);
            }
        }
    }
}
