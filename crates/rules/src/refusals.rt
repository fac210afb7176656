// Why a call or a question is refused.
ghost use Rattle.std.specs.Prelude.{◌≡◌, ◌<◌, [], ◌∷◌};
ghost use Rattle.rules.specs.Refusals.{code, code_at, letter, number};

use keeper::KeeperFault;
use thiserror::Error;

/// An entry that a keeper refused: its fault, and the receiver, or the giver of a debit.
#[derive(Clone, Copy, Debug, PartialEq, Eq, Error)]
#[error("register {register}: {fault}")]
pub struct EntryFault {
    pub fault: KeeperFault,
    pub register: usize,
}

/// Why a book refuses a call or a question.
#[derive(Clone, Copy, Debug, PartialEq, Eq, Error)]
pub enum Refusal {
    #[error("the member is not known")]
    UnknownMember,
    #[error("the instrument has no row, or its goods are not kept here")]
    NoInstrument,
    #[error("a value is outside its limits")]
    BadValue,
    #[error("the free limit is less than the sum")]
    FreeLimit,
    #[error("the last day is before today")]
    PastDay,
    #[error("the order number is 0 or not above all accepted")]
    OrderNumber,
    #[error("256 orders are live")]
    OrdersFull,
    #[error("the order is not live")]
    OrderNotLive,
    #[error("the two orders and the price do not match")]
    Mismatch,
    #[error("the lots are 0 or more than an order has left")]
    BadLots,
    #[error("the contract number is 0 or not above all accepted")]
    ContractNumber,
    #[error("256 contracts are live")]
    ContractsFull,
    #[error("the contract is not live")]
    ContractNotLive,
    #[error("the contract is not in the state for this")]
    ContractState,
    #[error("this is not the day for it")]
    WrongDay,
    #[error("the money keeper refuses it: {0}")]
    Money(EntryFault),
    #[error("the goods keeper refuses it: {0}")]
    Goods(EntryFault),
}

/// Where a refusal comes from.
#[derive(Clone, Copy, Debug, PartialEq, Eq)]
pub enum Layer {
    Sheet,
    Book,
    Money,
    Goods,
}

impl Layer {
    /// The letter that a report shows of the layer, an ASCII byte.
    pub fn letter(self) -> u8
        ensures letter { letter self ≡ result ∷ [] }
        ensures ascii { result < 128 }
    {
        match self {
            Layer::Sheet => b'S',
            Layer::Book => b'B',
            Layer::Money => b'M',
            Layer::Goods => b'G',
        }
    }
}

/// What a report shows of a refusal: of a keeper's its own number and the register, of a sheet's the place of the
/// field, else the number and 0.
#[derive(Clone, Copy, Debug, PartialEq, Eq)]
pub struct RefusalCode {
    pub layer: Layer,
    pub number: u64,
    pub place: u64,
}

impl EntryFault {
    /// What a report shows of the fault, of the keeper of this layer.
    fn code(self, layer: Layer) -> RefusalCode
        ensures { result ≡ code_at layer self }
    {
        RefusalCode {
            layer,
            number: self.fault.number(),
            place: self.register as u64,
        }
    }
}

impl Refusal {
    /// The book's number of the refusal. A match, so that each stands beside its cause.
    pub fn number(self) -> u64
        ensures { result ≡ number self }
    {
        match self {
            Refusal::UnknownMember => 11,
            Refusal::NoInstrument => 12,
            Refusal::BadValue => 13,
            Refusal::FreeLimit => 15,
            Refusal::PastDay => 16,
            Refusal::OrderNumber => 21,
            Refusal::OrdersFull => 22,
            Refusal::OrderNotLive => 23,
            Refusal::Mismatch => 24,
            Refusal::BadLots => 25,
            Refusal::ContractNumber => 26,
            Refusal::ContractsFull => 27,
            Refusal::ContractNotLive => 31,
            Refusal::ContractState => 32,
            Refusal::WrongDay => 33,
            Refusal::Money(_) => 41,
            Refusal::Goods(_) => 42,
        }
    }

    /// What a report shows of the refusal. By name and not by From: it leaves out what the refusal is, so it is no
    /// conversion, and faults of every layer are shown so.
    pub fn code(self) -> RefusalCode
        ensures { result ≡ code self }
    {
        match self {
            Refusal::Money(fault) => fault.code(Layer::Money),
            Refusal::Goods(fault) => fault.code(Layer::Goods),
            _ => RefusalCode {
                layer: Layer::Book,
                number: self.number(),
                place: 0,
            },
        }
    }
}
