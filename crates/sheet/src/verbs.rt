// The line that each verb makes of the fields after it: a function for each, since what differs is what it makes.
ghost use Rattle.std.specs.Prelude.{◌≡◌};
ghost use Rattle.sheet.specs.Lines.{line_in, row_line};
ghost use Rattle.sheet.specs.Pieces.{parts_after};
ghost use Rattle.sheet.specs.Verbs.{Ins, Dep, Wdr, Shf, Gin, Got, Ord, Cxl, Trd, Rte, Eot, Fnd, Dlv, Dft, Eod};

use crate::cursor::Fields;
use crate::faults::LineFault;
use crate::outcome::Line;
use rules::{Call, Event, Order, Row, Trade};

/// INS: number, kind, kilograms to a lot, funding days, delivery days, rate.
pub(crate) fn row(rest: Option<&[u8]>) -> Result<Row, LineFault>
    ensures { row_line result ≡ line_in Ins (parts_after rest.entry) }
{
    let mut fields = Fields::exactly(rest, 6)?;
    Ok(Row {
        number: fields.read()?,
        kind: fields.read()?,
        weight: fields.read()?,
        funding: fields.read()?,
        delivery: fields.read()?,
        rate: fields.read()?,
    })
}

/// DEP: member, account, amount.
pub(crate) fn deposit(rest: Option<&[u8]>) -> Result<Line, LineFault>
    ensures { result ≡ line_in Dep (parts_after rest.entry) }
{
    let mut fields = Fields::exactly(rest, 3)?;
    Ok(Line::Call(Call::Deposit {
        member: fields.read()?,
        account: fields.read()?,
        amount: fields.read()?,
    }))
}

/// WDR: member, account, amount.
pub(crate) fn withdrawal(rest: Option<&[u8]>) -> Result<Line, LineFault>
    ensures { result ≡ line_in Wdr (parts_after rest.entry) }
{
    let mut fields = Fields::exactly(rest, 3)?;
    Ok(Line::Call(Call::Withdraw {
        member: fields.read()?,
        account: fields.read()?,
        amount: fields.read()?,
    }))
}

/// SHF: member, the account that gives, amount.
pub(crate) fn shift(rest: Option<&[u8]>) -> Result<Line, LineFault>
    ensures { result ≡ line_in Shf (parts_after rest.entry) }
{
    let mut fields = Fields::exactly(rest, 3)?;
    Ok(Line::Call(Call::Shift {
        member: fields.read()?,
        source: fields.read()?,
        amount: fields.read()?,
    }))
}

/// GIN: member, instrument, kilograms.
pub(crate) fn goods_deposit(rest: Option<&[u8]>) -> Result<Line, LineFault>
    ensures { result ≡ line_in Gin (parts_after rest.entry) }
{
    let mut fields = Fields::exactly(rest, 3)?;
    Ok(Line::Call(Call::DepositGoods {
        member: fields.read()?,
        instrument: fields.read()?,
        kilograms: fields.read()?,
    }))
}

/// GOT: member, instrument, kilograms.
pub(crate) fn goods_withdrawal(rest: Option<&[u8]>) -> Result<Line, LineFault>
    ensures { result ≡ line_in Got (parts_after rest.entry) }
{
    let mut fields = Fields::exactly(rest, 3)?;
    Ok(Line::Call(Call::WithdrawGoods {
        member: fields.read()?,
        instrument: fields.read()?,
        kilograms: fields.read()?,
    }))
}

/// ORD: number, member, side, instrument, price, lots, last day or nothing.
pub(crate) fn order(rest: Option<&[u8]>) -> Result<Line, LineFault>
    ensures { result ≡ line_in Ord (parts_after rest.entry) }
{
    let mut fields = Fields::exactly(rest, 7)?;
    Ok(Line::Call(Call::Place(Order {
        number: fields.read()?,
        member: fields.read()?,
        side: fields.read()?,
        instrument: fields.read()?,
        price: fields.read()?,
        lots: fields.read()?,
        last: fields.read()?,
    })))
}

/// CXL: the order.
pub(crate) fn cancel(rest: Option<&[u8]>) -> Result<Line, LineFault>
    ensures { result ≡ line_in Cxl (parts_after rest.entry) }
{
    let order = Fields::exactly(rest, 1)?.read()?;
    Ok(Line::Call(Call::Cancel { order }))
}

/// TRD: contract, buy order, sell order, price, lots.
pub(crate) fn trade(rest: Option<&[u8]>) -> Result<Line, LineFault>
    ensures { result ≡ line_in Trd (parts_after rest.entry) }
{
    let mut fields = Fields::exactly(rest, 5)?;
    Ok(Line::Call(Call::Execute(Trade {
        contract: fields.read()?,
        buy: fields.read()?,
        sell: fields.read()?,
        price: fields.read()?,
        lots: fields.read()?,
    })))
}

/// RTE: instrument, rate.
pub(crate) fn rating(rest: Option<&[u8]>) -> Result<Line, LineFault>
    ensures { result ≡ line_in Rte (parts_after rest.entry) }
{
    let mut fields = Fields::exactly(rest, 2)?;
    Ok(Line::Call(Call::Rerate {
        instrument: fields.read()?,
        rate: fields.read()?,
    }))
}

/// EOT: no field.
pub(crate) fn end_of_trading(rest: Option<&[u8]>) -> Result<Line, LineFault>
    ensures { result ≡ line_in Eot (parts_after rest.entry) }
{
    Fields::exactly(rest, 0)?;
    Ok(Line::Call(Call::EndTrading))
}

/// FND: the contract.
pub(crate) fn funding(rest: Option<&[u8]>) -> Result<Line, LineFault>
    ensures { result ≡ line_in Fnd (parts_after rest.entry) }
{
    let contract = Fields::exactly(rest, 1)?.read()?;
    Ok(Line::Call(Call::Settle {
        contract,
        event: Event::Funding,
    }))
}

/// DLV: contract, kilograms.
pub(crate) fn delivery(rest: Option<&[u8]>) -> Result<Line, LineFault>
    ensures { result ≡ line_in Dlv (parts_after rest.entry) }
{
    let mut fields = Fields::exactly(rest, 2)?;
    Ok(Line::Call(Call::Settle {
        contract: fields.read()?,
        event: Event::Delivery {
            kilograms: fields.read()?,
        },
    }))
}

/// DFT: the contract.
pub(crate) fn default(rest: Option<&[u8]>) -> Result<Line, LineFault>
    ensures { result ≡ line_in Dft (parts_after rest.entry) }
{
    let contract = Fields::exactly(rest, 1)?.read()?;
    Ok(Line::Call(Call::Settle {
        contract,
        event: Event::Default,
    }))
}

/// EOD: no field.
pub(crate) fn end_of_session(rest: Option<&[u8]>) -> Result<Line, LineFault>
    ensures { result ≡ line_in Eod (parts_after rest.entry) }
{
    Fields::exactly(rest, 0)?;
    Ok(Line::Call(Call::EndSession))
}
