// Who is known to a book, and what is free of a member's.
ghost use Rattle.std.specs.Prelude.{◌≡◌, true, false, MatchResult};
ghost use Rattle.rules.specs.Limits.{free_goods, free_money, known};
ghost use Rattle.rules.specs.declared.refusals.Refusal.TheVariants.{UnknownMember};
ghost use Rattle.book.specs.Calls.{ledger};

use crate::book::Book;
use crate::halves::HalfOfDay;
use crate::view::BookView;
use charge::ChargeRule;
use keeper::Keeper;
use rules::{Account, Refusal};
use section::{Member, Stock};

impl<H: HalfOfDay, M: Keeper, G: Keeper, R: ChargeRule> Book<H, M, G, R> {
    /// The member of that number, if it is known.
    pub(crate) fn member(&self, number: u64) -> Result<Member, Refusal>
        ensures { MatchResult result
            (λ m. (m.number ≡ number)
            × (known (ledger ⟦<Self as BookView>⟧ self.now) number ≡ true))
            (λ e. (e ≡ UnknownMember)
            × (known (ledger ⟦<Self as BookView>⟧ self.now) number ≡ false)) }
    {
        Member::known(&self.money, &self.goods, number)
    }

    /// The free limit of a member's account.
    pub(crate) fn free_money(&self, member: Member, account: Account) -> i64
        ensures { result ≡ free_money (ledger ⟦<Self as BookView>⟧ self.now) member.number account }
    {
        self.section
            .free_money(&self.rule, &self.money, member, account)
    }

    /// The free limit of a member's goods.
    pub(crate) fn free_goods(&self, stock: Stock) -> i64
        ensures { result ≡ free_goods (ledger ⟦<Self as BookView>⟧ self.now)
            stock.member.number stock.instrument }
    {
        self.section.free_goods(&self.goods, stock)
    }
}
