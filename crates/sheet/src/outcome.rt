// What a line of a day sheet says.

use rules::{Call, Row};

/// A line that is in its form: an instrument's row, or a call.
#[derive(Clone, Copy, Debug, PartialEq, Eq)]
pub enum Line {
    Instrument(Row),
    Call(Call),
}
