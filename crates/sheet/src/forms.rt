// The types whose values stand in a field, and how each is read.
ghost use Rattle.std.specs.Prelude.{◌≡◌, ℕ, List, Option};
ghost use Rattle.sheet.specs.Forms.{a_number, an_account, a_side, a_kind, a_last_day, value_in};
ghost use Rattle.sheet.specs.Tokens.{field_text};

use crate::numerals::number;
use crate::tokens::{Field, Token};
use rules::{Account, Kind, Side};

/// A type whose values can stand in a field of a line.
pub(crate) trait FieldValue: Copy {
    // The value that a text has in the type's form, if it is in that form.
    ghost value_of: { List ℕ → Option Self };

    /// The value of a field; none where the field is not in the form.
    fn read(token: Token<'_>) -> Option<Self>
        ensures { result ≡ value_of (field_text token.entry.field) };
}

/// A number, in at most 16 digits.
impl FieldValue for u64 {
    ghost value_of = { value_in a_number };

    fn read(token: Token<'_>) -> Option<u64> {
        match token.field {
            Field::Number(text) => number(text),
            _ => None,
        }
    }
}

/// P for position, C for clearing.
impl FieldValue for Account {
    ghost value_of = { value_in an_account };

    fn read(token: Token<'_>) -> Option<Account> {
        match token.field {
            Field::Word(b"P") => Some(Account::Position),
            Field::Word(b"C") => Some(Account::Clearing),
            _ => None,
        }
    }
}

/// B for a buy, S for a sell.
impl FieldValue for Side {
    ghost value_of = { value_in a_side };

    fn read(token: Token<'_>) -> Option<Side> {
        match token.field {
            Field::Word(b"B") => Some(Side::Buy),
            Field::Word(b"S") => Some(Side::Sell),
            _ => None,
        }
    }
}

/// W for warehouse, S for shipment.
impl FieldValue for Kind {
    ghost value_of = { value_in a_kind };

    fn read(token: Token<'_>) -> Option<Kind> {
        match token.field {
            Field::Word(b"W") => Some(Kind::Warehouse),
            Field::Word(b"S") => Some(Kind::Shipment),
            _ => None,
        }
    }
}

/// A last day; it may be left out.
impl FieldValue for Option<u64> {
    ghost value_of = { value_in a_last_day };

    fn read(token: Token<'_>) -> Option<Option<u64>> {
        match token.field {
            Field::Empty => Some(None),
            _ => u64::read(token).map(Some),
        }
    }
}
