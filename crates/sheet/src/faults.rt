// Why a line is not in its form.
ghost use Rattle.std.specs.Prelude.{◌≡◌};
ghost use Rattle.sheet.specs.Faults.{code};

use rules::{Layer, RefusalCode};
use thiserror::Error;

/// Why a line is not in its form; the first that applies, in this order.
#[derive(Clone, Copy, Debug, PartialEq, Eq, Error)]
pub enum LineFault {
    /// The line has more than [`MAX_LINE_BYTES`](rules::MAX_LINE_BYTES), its feed apart.
    #[error("the line has more than 120 bytes")]
    LongLine,
    #[error("the line does not begin with a verb")]
    UnknownVerb,
    #[error("the verb takes another number of fields")]
    FieldCount,
    /// The first field that is not in its form, by its place; the verb has place 0.
    #[error("field {0} is not in its form")]
    NotInForm(u8),
}

impl LineFault {
    /// What a report shows of the fault. By name and not by From, as of any refusal: it leaves out what the fault is. A
    /// match, so that each number stands beside its cause.
    pub fn code(self) -> RefusalCode
        ensures { result ≡ code self }
    {
        let (number, place) = match self {
            LineFault::LongLine => (51, 0),
            LineFault::UnknownVerb => (52, 0),
            LineFault::FieldCount => (53, 0),
            LineFault::NotInForm(place) => (54, u64::from(place)),
        };
        RefusalCode {
            layer: Layer::Sheet,
            number,
            place,
        }
    }
}
