// Why a line of a sheet has no answers.
ghost use Rattle.std.specs.Prelude.{◌≡◌};
ghost use Rattle.report.specs.Parsed.{code, fault_of};
ghost use Rattle.report.specs.declared.faults.SheetFault.TheVariants.{NotRead};

use rules::{Layer, Refusal, RefusalCode, RequestFault};
use sheet::LineFault;
use thiserror::Error;

/// Why a line has no answers: it is not in its form, it does not belong here, or the book refuses its call. A sheet
/// that is too long is refused whole.
#[derive(Clone, Copy, Debug, PartialEq, Eq, Error)]
pub enum SheetFault {
    #[error(transparent)]
    NotRead(LineFault),
    /// The half of the day does not take the verb, or a row comes after the opening.
    #[error("this part of the day does not take the line")]
    Misplaced,
    /// The sheet has more than [`MAX_SHEET_BYTES`](rules::MAX_SHEET_BYTES).
    #[error("the sheet has more than 65536 bytes")]
    LongSheet,
    #[error(transparent)]
    Refused(Refusal),
}

impl From<LineFault> for SheetFault {
    ghost from_gives = { λ f r. r ≡ NotRead f };

    fn from(fault: LineFault) -> SheetFault {
        SheetFault::NotRead(fault)
    }
}

impl From<RequestFault> for SheetFault {
    ghost from_gives = { λ e r. r ≡ fault_of e };

    fn from(fault: RequestFault) -> SheetFault {
        match fault {
            RequestFault::Refused(refusal) => SheetFault::Refused(refusal),
            RequestFault::Misplaced => SheetFault::Misplaced,
        }
    }
}

impl SheetFault {
    /// What a report shows of the fault, by name and by a match, as of any refusal.
    pub fn code(self) -> RefusalCode
        ensures { result ≡ code self }
    {
        let number = match self {
            SheetFault::NotRead(fault) => return fault.code(),
            SheetFault::Refused(refusal) => return refusal.code(),
            SheetFault::Misplaced => 55,
            SheetFault::LongSheet => 56,
        };
        RefusalCode {
            layer: Layer::Sheet,
            number,
            place: 0,
        }
    }
}
