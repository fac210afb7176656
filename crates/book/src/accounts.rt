// What members bring to their accounts, take and shift. Each call has its numbers one by one, as a line of a sheet.
ghost use Rattle.std.specs.Prelude.{◌≡◌, Ok, Err, OnErr, if◌then◌else◌};
ghost use Rattle.rules.specs.Terms.{good_amount};
ghost use Rattle.rules.specs.declared.calls.Account.TheVariants.{Position};
ghost use Rattle.rules.specs.declared.calls.Call.TheVariants.{Deposit, DepositGoods, Shift, Withdraw, WithdrawGoods};
ghost use Rattle.rules.specs.declared.refusals.Refusal.TheVariants.{BadValue};
ghost use Rattle.section.specs.Called.{answers_of_one, answers_of_two};
ghost use Rattle.book.specs.Calls.{Calls, Checked};

use crate::book::Book;
use crate::halves::{HalfOfDay, TakesOrders};
use crate::view::BookView;
use charge::ChargeRule;
use keeper::{Entry, Keeper};
use rules::{Account, MAX_AMOUNT, Refusal};
use section::{Member, Stock, held};

/// Kopecks or kilograms that can be brought or taken. The book's own limit, though the keepers' has the same number.
fn check_amount(amount: u64) -> Result<(), Refusal>
    ensures { result ≡ (if good_amount amount then Ok tt else Err BadValue) }
{
    if !(1..=MAX_AMOUNT).contains(&amount) {
        return Err(Refusal::BadValue);
    }
    Ok(())
}

impl<H: HalfOfDay, M: Keeper, G: Keeper, R: ChargeRule> Book<H, M, G, R> {
    /// The member who brings money, or what the book refuses a deposit of it for.
    // Position stands for either account: no check of a deposit looks at it.
    fn check_money(&self, member: u64, amount: u64) -> Result<Member, Refusal>
        ensures { Checked ⟦<Self as BookView>⟧ self.now (Deposit member Position amount)
            (λ m. m.number ≡ member) result }
    {
        let member = self.member(member)?;
        check_amount(amount)?;
        Ok(member)
    }

    /// Brings money to a member's account, and answers the new amount.
    pub fn deposit(&mut self, member: u64, account: Account, amount: u64) -> Result<u64, Refusal>
        ensures called { Calls ⟦<Self as BookView>⟧ self.old (Deposit member account amount)
            (answers_of_one result) self.new }
        ensures err { OnErr result (self.new ≡ self.old) }
    {
        let receiver = self.check_money(member, amount)?.account(account);
        self.enter_money(Entry::Credit { receiver, amount })
    }

    /// The register's member and instrument, or what the book refuses a deposit of goods for.
    fn check_goods(&self, member: u64, instrument: u64, kilograms: u64) -> Result<Stock, Refusal>
        ensures { Checked ⟦<Self as BookView>⟧ self.now (DepositGoods member instrument kilograms)
            (λ s. (s.member.number ≡ member) × (s.instrument ≡ instrument)) result }
    {
        let member = self.member(member)?;
        let stock = self.section.warehoused_stock(member, instrument)?;
        check_amount(kilograms)?;
        Ok(stock)
    }

    /// Brings goods to a member's register of an instrument, and answers the new amount.
    pub fn deposit_goods(
        &mut self,
        member: u64,
        instrument: u64,
        kilograms: u64,
    ) -> Result<u64, Refusal>
        ensures called { Calls ⟦<Self as BookView>⟧ self.old
            (DepositGoods member instrument kilograms) (answers_of_one result) self.new }
        ensures err { OnErr result (self.new ≡ self.old) }
    {
        let receiver = self.check_goods(member, instrument, kilograms)?.register();
        self.enter_goods(Entry::Credit {
            receiver,
            amount: kilograms,
        })
    }
}

impl<H: TakesOrders, M: Keeper, G: Keeper, R: ChargeRule> Book<H, M, G, R> {
    /// The member who takes money, or what the book refuses a withdrawal or a shift of it for.
    fn check_taking(&self, member: u64, account: Account, amount: u64) -> Result<Member, Refusal>
        ensures { Checked ⟦<Self as BookView>⟧ self.now (Withdraw member account amount)
            (λ m. m.number ≡ member) result }
    {
        let member = self.check_money(member, amount)?;
        if self.free_money(member, account) < amount as i64 {
            return Err(Refusal::FreeLimit);
        }
        Ok(member)
    }

    /// Takes money from a member's account, and answers the new amount.
    pub fn withdraw(&mut self, member: u64, account: Account, amount: u64) -> Result<u64, Refusal>
        ensures called { Calls ⟦<Self as BookView>⟧ self.old (Withdraw member account amount)
            (answers_of_one result) self.new }
        ensures err { OnErr result (self.new ≡ self.old) }
    {
        let giver = self.check_taking(member, account, amount)?.account(account);
        self.enter_money(Entry::Debit { giver, amount })
    }

    /// Moves money between a member's two accounts, and answers what is then in position and in clearing.
    pub fn shift(
        &mut self,
        member: u64,
        source: Account,
        amount: u64,
    ) -> Result<(u64, u64), Refusal>
        ensures called { Calls ⟦<Self as BookView>⟧ self.old (Shift member source amount)
            (answers_of_two result) self.new }
        ensures err { OnErr result (self.new ≡ self.old) }
    {
        let member = self.check_taking(member, source, amount)?;
        self.enter_money(Entry::Transfer {
            giver: member.account(source),
            receiver: member.account(source.other()),
            amount,
        })?;
        let position = held(&self.money, member.account(Account::Position));
        let clearing = held(&self.money, member.account(Account::Clearing));
        Ok((position, clearing))
    }

    /// The register's member and instrument, or what the book refuses a withdrawal of goods for.
    fn check_taking_goods(
        &self,
        member: u64,
        instrument: u64,
        kilograms: u64,
    ) -> Result<Stock, Refusal>
        ensures { Checked ⟦<Self as BookView>⟧ self.now (WithdrawGoods member instrument kilograms)
            (λ s. (s.member.number ≡ member) × (s.instrument ≡ instrument)) result }
    {
        let stock = self.check_goods(member, instrument, kilograms)?;
        if self.free_goods(stock) < kilograms as i64 {
            return Err(Refusal::FreeLimit);
        }
        Ok(stock)
    }

    /// Takes goods from a member's register, and answers the new amount.
    pub fn withdraw_goods(
        &mut self,
        member: u64,
        instrument: u64,
        kilograms: u64,
    ) -> Result<u64, Refusal>
        ensures called { Calls ⟦<Self as BookView>⟧ self.old
            (WithdrawGoods member instrument kilograms) (answers_of_one result) self.new }
        ensures err { OnErr result (self.new ≡ self.old) }
    {
        let giver = self
            .check_taking_goods(member, instrument, kilograms)?
            .register();
        self.enter_goods(Entry::Debit {
            giver,
            amount: kilograms,
        })
    }
}
