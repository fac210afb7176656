// What an event of a contract moves, at both keepers or at neither.
ghost use Rattle.std.specs.Prelude.{◌≡◌, Ok};
ghost use Rattle.std.specs.Option.{option_map};
ghost use Rattle.section.specs.Settling.{entry_of};
ghost use Rattle.book.specs.Entered.{Posts, Says, Transferred};

use crate::entering::post;
use keeper::{Entry, Keeper, Registers, vet_transfer};
use rules::{EntryFault, Refusal};
use section::Transfer;

/// What a keeper has to say to a transfer; nothing is posted.
fn ask<K: Registers>(keeper: &K, transfer: Transfer) -> Result<(), EntryFault>
    ensures { Says (K.Registers.meaning keeper.now) (entry_of transfer) result }
{
    vet_transfer(keeper, transfer.giver, transfer.receiver, transfer.amount).map_err(|fault| {
        EntryFault {
            fault,
            register: transfer.receiver,
        }
    })
}

/// Pays and ships. Goods are asked before money is posted; where both refuse, money's refusal stands.
fn pay_and_ship<M: Keeper, G: Keeper>(
    money: &mut M,
    goods: &mut G,
    payment: Transfer,
    shipment: Transfer,
) -> Result<(), Refusal>
    ensures { Transferred M.Registers G.Registers money.old goods.old
        (Some (entry_of payment)) (Some (entry_of shipment)) result money.new goods.new }
{
    if let Err(fault) = ask(goods, shipment) {
        ask(money, payment).map_err(Refusal::Money)?;
        return Err(Refusal::Goods(fault));
    }
    post(money, payment.into()).map_err(Refusal::Money)?;
    post(goods, shipment.into()).map_err(Refusal::Goods)
}

/// Moves money and goods, each if there is something to move, or neither.
pub(crate) fn transfer<M: Keeper, G: Keeper>(
    money: &mut M,
    goods: &mut G,
    payment: Option<Transfer>,
    shipment: Option<Transfer>,
) -> Result<(), Refusal>
    ensures { Transferred M.Registers G.Registers money.old goods.old
        (option_map entry_of payment) (option_map entry_of shipment) result money.new goods.new }
{
    match (payment, shipment) {
        (None, None) => Ok(()),
        (Some(payment), None) => post(money, payment.into()).map_err(Refusal::Money),
        (None, Some(shipment)) => post(goods, shipment.into()).map_err(Refusal::Goods),
        (Some(payment), Some(shipment)) => pay_and_ship(money, goods, payment, shipment),
    }
}
