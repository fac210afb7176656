// The fields after a verb, one after the other.
ghost use Rattle.std.specs.Prelude.{◌≡◌, length, MatchResult, ◌≢◌};
ghost use Rattle.sheet.specs.declared.faults.LineFault.TheVariants.{FieldCount};
ghost use Rattle.sheet.specs.Cursors.{parts_left, place_of, next_place, Takes};
ghost use Rattle.sheet.specs.Pieces.{parts, parts_after, first_of, others_of};
ghost use Rattle.sheet.specs.Tokens.{field_text};

use crate::cutting::cut;
use crate::faults::LineFault;
use crate::forms::FieldValue;
use crate::tokens::Token;

/// The fields that are still to be read, and the place of the first of them.
#[derive(Clone, Copy)]
pub(crate) struct Fields<'a> {
    left: Option<&'a [u8]>,
    place: u8,
}

/// How many parts a text has.
fn count_parts(text: &[u8]) -> usize
    ensures { result ≡ length (parts text.now) }
{
    1 + text.iter().filter(|b| **b == b',').count()
}

impl<'a> Fields<'a> {
    /// The fields after the verb, if there are `n` of them.
    pub(crate) fn exactly(left: Option<&'a [u8]>, n: usize) -> Result<Fields<'a>, LineFault>
        ensures { MatchResult result
            (λ f. (length (parts_after left.entry) ≡ n) × (parts_left f ≡ parts_after left.entry)
            × (place_of f ≡ 1))
            (λ e. (length (parts_after left.entry) ≢ n) × (e ≡ FieldCount)) }
    {
        if left.map_or(0, count_parts) == n {
            Ok(Fields { left, place: 1 })
        } else {
            Err(LineFault::FieldCount)
        }
    }

    /// Cuts off the first field.
    fn next(&mut self) -> Token<'a>
        ensures placed { result.place ≡ place_of self.old }
        ensures text { field_text result.field ≡ first_of (parts_left self.old) }
        ensures left { parts_left self.new ≡ others_of (parts_left self.old) }
        ensures place { place_of self.new ≡ next_place (place_of self.old) }
    {
        let place = self.place;
        self.place = place.saturating_add(1);
        match self.left {
            Some(text) => {
                let (part, after) = cut(b',', text);
                self.left = after;
                Token::new(place, part)
            }
            None => Token::new(place, b""),
        }
    }

    /// Reads the first field as a value.
    pub(crate) fn read<T: FieldValue>(&mut self) -> Result<T, LineFault>
        ensures { Takes T.value_of self.old result self.new }
    {
        let token = self.next();
        T::read(token).ok_or(LineFault::NotInForm(token.place))
    }
}
