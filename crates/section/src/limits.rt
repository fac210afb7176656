// Free limits: an amount less the holds on it, below zero where more is held than there is.
ghost use Rattle.std.specs.Prelude.{◌≡◌, ◌≤◌, [], pos, ◌-ℤ◌};
ghost use Rattle.keeper.specs.Meaning.{limit};
ghost use Rattle.rules.specs.Limits.{free_goods, free_money, trading};
ghost use Rattle.section.specs.Fits.{most_held};
ghost use Rattle.section.specs.Views.{ledger_of, section_and_goods};

use crate::members::{Member, Stock, held};
use crate::section::Section;
use charge::ChargeRule;
use keeper::Registers;
use rules::Account;

/// What of an amount is free of holds.
fn difference(amount: u64, holds: u64) -> i64
    requires amount { amount ≤ limit }
    requires holds { holds ≤ most_held }
    ensures { result ≡ pos amount -ℤ pos holds }
{
    amount as i64 - holds as i64
}

impl Section {
    /// The free limit of a member's account.
    pub fn free_money<M: Registers, R: ChargeRule>(
        &self,
        rule: &R,
        money: &M,
        member: Member,
        account: Account,
    ) -> i64
        ensures { result ≡ free_money
            (ledger_of trading R.ChargeRule self.now rule.now (M.meaning money.now).amounts [])
            member.number account }
    {
        let holds = match account {
            Account::Position => self.position_holds(rule, member.number),
            Account::Clearing => self.clearing_holds(member.number),
        };
        difference(held(money, member.account(account)), holds)
    }

    /// The free limit of a member's goods.
    pub fn free_goods<G: Registers>(&self, goods: &G, stock: Stock) -> i64
        ensures { result ≡ free_goods (section_and_goods self.now (G.meaning goods.now).amounts)
            stock.member.number stock.instrument }
    {
        let holds = self.goods_holds(stock.member.number, stock.instrument);
        difference(held(goods, stock.register()), holds)
    }
}
