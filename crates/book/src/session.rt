// What staff bring to a session book: fundings, deliveries and defaults.
ghost use Rattle.std.specs.Prelude.{◌≡◌, OnErr};
ghost use Rattle.rules.specs.declared.calls.Call.TheVariants.{Settle};
ghost use Rattle.rules.specs.declared.contracts.Event.TheVariants.{Default, Delivery, Funding};
ghost use Rattle.section.specs.Called.{answers_of_one};
ghost use Rattle.book.specs.Calls.{Calls};

use crate::book::Book;
use crate::halves::TakesEvents;
use crate::transfers::transfer;
use crate::view::BookView;
use charge::ChargeRule;
use keeper::Keeper;
use rules::{Answers, Event, Refusal};

/// A delivery as it was counted.
#[derive(Clone, Copy, Debug, PartialEq, Eq)]
pub struct Delivered {
    /// At most those open.
    pub kilograms: u64,
    /// Kopecks for them.
    pub payment: u64,
}

impl From<Answers> for Delivered {
    ghost use Rattle.book.specs.Settled.{delivered_of};

    ghost from_gives = { λ a d. d ≡ delivered_of a };

    fn from(answers: Answers) -> Delivered {
        Delivered {
            kilograms: answers.first,
            payment: answers.second,
        }
    }
}

/// The penalty of a default, in kopecks.
#[derive(Clone, Copy, Debug, PartialEq, Eq)]
pub struct Penalty {
    /// As far as the failing side's position goes.
    pub paid: u64,
    pub unpaid: u64,
}

impl From<Answers> for Penalty {
    ghost use Rattle.book.specs.Settled.{penalty_of};

    ghost from_gives = { λ a p. p ≡ penalty_of a };

    fn from(answers: Answers) -> Penalty {
        Penalty {
            paid: answers.first,
            unpaid: answers.second,
        }
    }
}

impl<H: TakesEvents, M: Keeper, G: Keeper, R: ChargeRule> Book<H, M, G, R> {
    ghost use Rattle.book.specs.Settled.{answers_of_default, answers_of_delivery};

    /// An event of a live contract: refused by its own state and the day, then by the keepers, which are both
    /// asked before the first entry.
    pub(crate) fn settle(&mut self, contract: u64, event: Event) -> Result<Answers, Refusal>
        ensures called { Calls ⟦<Self as BookView>⟧ self.old
            (Settle contract event) result self.new }
        ensures err { OnErr result (self.new ≡ self.old) }
    {
        let settlement = self
            .section
            .settle(&self.rule, &self.money, contract, event)?;
        let effect = settlement.effect;
        transfer(&mut self.money, &mut self.goods, effect.money, effect.goods)?;
        self.section.apply(settlement);
        Ok(effect.answers)
    }

    /// Funds a contract, and answers its due.
    pub fn fund(&mut self, contract: u64) -> Result<u64, Refusal>
        ensures called { Calls ⟦<Self as BookView>⟧ self.old
            (Settle contract Funding) (answers_of_one result) self.new }
        ensures err { OnErr result (self.new ≡ self.old) }
    {
        Ok(self.settle(contract, Event::Funding)?.first)
    }

    /// Reports kilograms delivered, and answers those counted and the payment for them.
    pub fn deliver(&mut self, contract: u64, kilograms: u64) -> Result<Delivered, Refusal>
        ensures called { Calls ⟦<Self as BookView>⟧ self.old (Settle contract (Delivery kilograms))
            (answers_of_delivery result) self.new }
        ensures err { OnErr result (self.new ≡ self.old) }
    {
        Ok(self.settle(contract, Event::Delivery { kilograms })?.into())
    }

    /// Declares a default, and answers what of the penalty is paid and what is not.
    pub fn default(&mut self, contract: u64) -> Result<Penalty, Refusal>
        ensures called { Calls ⟦<Self as BookView>⟧ self.old
            (Settle contract Default) (answers_of_default result) self.new }
        ensures err { OnErr result (self.new ≡ self.old) }
    {
        Ok(self.settle(contract, Event::Default)?.into())
    }
}
