// Members who can be known, their registers, and what is in a register.
ghost use Rattle.std.specs.Prelude.{◌≡◌, ◌≤◌, true, false, MatchResult, slice_index};
ghost use Rattle.keeper.specs.Meaning.{limit};
ghost use Rattle.rules.specs.Terms.{goods_register, money_register};
ghost use Rattle.rules.specs.declared.refusals.Refusal.TheVariants.{UnknownMember};
ghost use Rattle.section.specs.Views.{known_to};

use keeper::Registers;
use rules::{Account, MAX_INSTRUMENT, MAX_MEMBER, Refusal};

/// The registers of goods of a member.
const GOODS_REGISTERS: u64 = MAX_INSTRUMENT + 1;

/// A member who can be known.
#[derive(Clone, Copy, Debug, PartialEq, Eq)]
pub struct Member {
    /// Up to [`MAX_MEMBER`].
    pub number: u64,
    ghost few: { number ≤ 63 },
}

/// Whether a member's number is one, and all its registers are there.
fn is_known<M: Registers, G: Registers>(money: &M, goods: &G, number: u64) -> bool
    ensures { result ≡ known_to M.Registers G.Registers money.now goods.now number }
{
    number <= MAX_MEMBER
        && 2 * number + 1 < money.count() as u64
        && GOODS_REGISTERS * number + MAX_INSTRUMENT < goods.count() as u64
}

impl Member {
    /// The member of that number, if both keepers have all its registers.
    pub fn known<M: Registers, G: Registers>(
        money: &M,
        goods: &G,
        number: u64,
    ) -> Result<Member, Refusal>
        ensures { MatchResult result
            (λ m. (m.number ≡ number)
            × (known_to M.Registers G.Registers money.now goods.now number ≡ true))
            (λ e. (e ≡ UnknownMember)
            × (known_to M.Registers G.Registers money.now goods.now number ≡ false)) }
    {
        if !is_known(money, goods, number) {
            return Err(Refusal::UnknownMember);
        }
        Ok(Member { number })
    }

    /// The member's register of an account.
    pub fn account(self, account: Account) -> usize
        ensures { result ≡ money_register self.number account }
    {
        let position = 2 * self.number as usize;
        match account {
            Account::Position => position,
            Account::Clearing => position + 1,
        }
    }
}

/// The goods of such a member, of an instrument that can have a row.
#[derive(Clone, Copy, Debug, PartialEq, Eq)]
pub struct Stock {
    pub member: Member,
    /// Up to [`MAX_INSTRUMENT`].
    pub instrument: u64,
    ghost few: { instrument ≤ 15 },
}

impl Stock {
    /// Their register.
    pub fn register(self) -> usize
        ensures { result ≡ goods_register self.member.number self.instrument }
    {
        (GOODS_REGISTERS * self.member.number + self.instrument) as usize
    }
}

/// The amount in a register; 0 where there is none.
pub fn held<K: Registers>(keeper: &K, register: usize) -> u64
    ensures value { result ≡ slice_index (K.meaning keeper.now).amounts register }
    ensures bound { result ≤ limit }
{
    keeper.amount(register).unwrap_or(0)
}
