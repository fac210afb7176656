// The fields of a line, each with its place.
ghost use Rattle.std.specs.Prelude.{◌≡◌, true};
ghost use Rattle.sheet.specs.Tokens.{field_text, is_classified};

/// A field by how it begins: with a letter or another sign, with a digit, or not at all. It borrows its part of the
/// line: a reader of a value sees the class before the bytes, and copies none.
#[derive(Clone, Copy)]
pub(crate) enum Field<'a> {
    Word(&'a [u8]),
    Number(&'a [u8]),
    Empty,
}

impl<'a> Field<'a> {
    /// Classifies a part of a line.
    fn of(part: &'a [u8]) -> Field<'a>
        ensures whole { field_text result ≡ part.now }
        ensures class { is_classified result ≡ true }
    {
        match part {
            [] => Field::Empty,
            [b'0'..=b'9', ..] => Field::Number(part),
            _ => Field::Word(part),
        }
    }
}

/// A field with its place in the line; the verb has place 0.
#[derive(Clone, Copy)]
pub(crate) struct Token<'a> {
    pub(crate) place: u8,
    pub(crate) field: Field<'a>,
    ghost classified: { is_classified field ≡ true },
}

impl<'a> Token<'a> {
    pub(crate) fn new(place: u8, part: &'a [u8]) -> Token<'a>
        ensures place { result.place ≡ place }
        ensures whole { field_text result.field ≡ part.now }
    {
        Token {
            place,
            field: Field::of(part),
        }
    }
}
