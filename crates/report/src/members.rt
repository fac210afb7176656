// The members at the end of a report.
ghost use Rattle.std.specs.Prelude.{◌≡◌, if◌then◌else◌, Some, None, OnOk};
ghost use Rattle.rules.specs.Limits.{amount, free_money, known};
ghost use Rattle.book.specs.Calls.{ledger};
ghost use Rattle.report.specs.Reports.{is_listed, member_of, members_below};
ghost use Rattle.report.specs.Runs.{Adds, HasRoom, text_of};
ghost use Rattle.report.specs.Texts.{report_text};

use crate::lines::ReportLine;
use crate::writing::Report;
use book::{BookView, SectionBook};
use charge::ChargeRule;
use keeper::Keeper;
use rules::{Account, MAX_MEMBER, Question, Reply};
use std::alloc::AllocError;

/// The members who can be known.
pub(crate) const MEMBERS: usize = MAX_MEMBER as usize + 1;

// Two functions: a sum and a limit come in different replies.

/// A known member's amount.
fn amount<M: Keeper, G: Keeper, R: ChargeRule>(
    book: &SectionBook<M, G, R>,
    member: u64,
    account: Account,
) -> Option<u64>
    ensures { result ≡ (if known (ledger ⟦<SectionBook<M, G, R> as BookView>⟧ book.now) member
        then Some (amount (ledger ⟦<SectionBook<M, G, R> as BookView>⟧ book.now) member account)
        else None) }
{
    match book.ask(Question::Amount { member, account }) {
        Ok(Reply::Sum(sum)) => Some(sum),
        _ => None,
    }
}

/// A known member's free limit.
fn free<M: Keeper, G: Keeper, R: ChargeRule>(
    book: &SectionBook<M, G, R>,
    member: u64,
    account: Account,
) -> Option<i64>
    ensures { result ≡ (if known (ledger ⟦<SectionBook<M, G, R> as BookView>⟧ book.now) member
        then Some (free_money (ledger ⟦<SectionBook<M, G, R> as BookView>⟧ book.now) member account)
        else None) }
{
    match book.ask(Question::FreeMoney { member, account }) {
        Ok(Reply::Limit(limit)) => Some(limit),
        _ => None,
    }
}

/// The line of a known member with money or a free position limit that is not 0.
fn member_line<M: Keeper, G: Keeper, R: ChargeRule>(
    book: &SectionBook<M, G, R>,
    member: u64,
) -> Option<ReportLine>
    ensures { result ≡ (if is_listed (ledger ⟦<SectionBook<M, G, R> as BookView>⟧ book.now) member
        then Some (member_of (ledger ⟦<SectionBook<M, G, R> as BookView>⟧ book.now) member)
        else None) }
{
    let position = amount(book, member, Account::Position)?;
    let clearing = amount(book, member, Account::Clearing)?;
    let free_position = free(book, member, Account::Position)?;
    let free_clearing = free(book, member, Account::Clearing)?;
    let listed = position > 0 || clearing > 0 || free_position != 0;
    listed.then_some(ReportLine::Member {
        member,
        position,
        clearing,
        free_position,
        free_clearing,
    })
}

/// Reports on all members who have a line, by their numbers.
pub(crate) fn report_members<M: Keeper, G: Keeper, R: ChargeRule>(
    book: &SectionBook<M, G, R>,
    report: &mut Report,
)
    requires { HasRoom report.old 64 }
    ensures { Adds (text_of report.old)
        (report_text (members_below (ledger ⟦<SectionBook<M, G, R> as BookView>⟧ book.now) 64))
        (text_of report.new) }
{
    for member in 0..MAX_MEMBER + 1 {
        if let Some(line) = member_line(book, member) {
            report.add(&line);
        }
    }
}
