// The ends of the two halves of a day.
ghost use Rattle.std.specs.Prelude.{◌≡◌, Ok};
ghost use Rattle.rules.specs.Answering.{one};
ghost use Rattle.rules.specs.Effects.{section_after};
ghost use Rattle.rules.specs.declared.calls.Call.TheVariants.{EndSession, EndTrading};
ghost use Rattle.section.specs.Called.{SectionCalled};
ghost use Rattle.section.specs.Views.{section_alone, section_of};

use crate::section::Section;
use rules::MAX_DAY;

impl Section {
    /// Ends the trading of the day: orders whose last day it was are dropped. Answers how many.
    pub fn end_trading(&mut self) -> u64
        ensures { SectionCalled (section_alone self.old) EndTrading (Ok (one result))
            (section_of self.new) }
    {
        let before = self.orders.items.len();
        let today = self.day;
        self.orders
            .items
            .retain(|live| live.order.last.is_none_or(|last| last != today));
        (before - self.orders.items.len()) as u64
    }

    /// Ends the session: the next day begins.
    pub fn end_session(&mut self)
        ensures { section_of self.new ≡ section_after (section_alone self.old) EndSession }
    {
        self.day = (self.day + 1).min(MAX_DAY);
    }
}
