// Whole runs of requests.
ghost use Rattle.std.specs.Prelude.{◌≡◌, IfOk};
ghost use Rattle.rules.specs.Law.{RunLaw, opened, start};
ghost use Rattle.book.specs.SectionBook.{book_of};
ghost use Rattle.book.specs.Views.{keepers_of};

use crate::book::TradingBook;
use crate::section_book::SectionBook;
use crate::view::BookView;
use charge::ChargeRule;
use keeper::Keeper;
use rules::{Request, Response, Row};
use std::alloc::{AllocError, Global};

/// Opens a book with the rows that can be used.
fn open<M: Keeper + Drop, G: Keeper + Drop, R: ChargeRule + Drop>(
    heap: Global,
    rows: &[Row],
    money: M,
    goods: G,
    rule: R,
) -> Result<SectionBook<M, G, R>, AllocError>
    ensures opened { IfOk result (λ b.
        ⟦<SectionBook<M, G, R> as BookView>⟧.snapshot b
        ≡ opened (start M.Registers G.Registers R.ChargeRule rows.now money goods rule)) }
    ensures keepers { IfOk result
        (λ b. keepers_of (book_of b) ≡ record { money = money; goods = goods }) }
{
    let book = TradingBook::open(heap, rows, money, goods, rule)?;
    Ok(SectionBook::from(book))
}

/// Opens a book and takes the requests in turn. The responses, and the book at the end, keep the law of whole runs,
/// for any rows, any two keepers, any charge rule and any requests.
pub fn replay<M: Keeper + Drop, G: Keeper + Drop, R: ChargeRule + Drop>(
    heap: Global,
    rows: &[Row],
    money: M,
    goods: G,
    rule: R,
    requests: &[Request],
) -> Result<(Vec<Response>, SectionBook<M, G, R>), AllocError>
    ensures { IfOk result (λ p.
        RunLaw M.Registers G.Registers
        (start M.Registers G.Registers R.ChargeRule rows.now money goods rule)
        (record { money = money; goods = goods })
        requests.now p.0.items
        (⟦<SectionBook<M, G, R> as BookView>⟧.snapshot p.1) (keepers_of (book_of p.1))) }
{
    let mut responses = Vec::with_capacity(heap, requests.len())?;
    let mut book = open(heap, rows, money, goods, rule)?;
    for request in requests {
        responses.push_reserved(book.take(*request));
    }
    Ok((responses, book))
}
