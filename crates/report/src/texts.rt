// The text of a line of a report.
ghost use Rattle.std.specs.Prelude.{◌≡◌, ◌+◌, ◌<◌, ◌≤◌, [], ◌∷◌, ◌++◌, decimal, drop, length, IsAscii};
ghost use Rattle.report.specs.Texts.{field, shown_line, signed_field};

use crate::lines::ReportLine;
use itoa::write_digits;

/// A line has at most so many bytes: a member's has a letter, and five fields of a comma, a sign and 20 digits.
pub(crate) const LINE_BYTES: usize = 111;

/// A text that is written from its end, as the digits of a number come, with room for a line of a report.
// Not by `write!` or piece by piece, since a sheet is to be run as fast as by plain Rust: by `write!` a line took some
// 260 instructions more, and by `itoa` and `write_str`, inlined, 110: below plain Rust's speed for trades (0.98) and
// deliveries (0.92).
#[derive(Clone, Copy)]
pub(crate) struct LineText {
    bytes: [u8; LINE_BYTES],
    start: usize,
    ghost within: { start ≤ 111 },
    ghost ascii: { IsAscii (drop start bytes) },
}

impl LineText {
    ghost use Rattle.report.specs.LineTexts.{text_of};

    /// Nothing is written.
    pub(crate) fn new() -> LineText
        ensures text { text_of result ≡ [] }
        ensures start { result.start ≡ 111 }
    {
        LineText {
            bytes: [0; LINE_BYTES],
            start: LINE_BYTES,
        }
    }

    fn put(&mut self, byte: u8)
        requires { (byte < 128) × (0 < self.old.start) }
        ensures text { text_of self.new ≡ byte ∷ text_of self.old }
        ensures start { self.new.start + 1 ≡ self.old.start }
    {
        self.start -= 1;
        self.bytes[self.start] = byte;
    }

    fn number(&mut self, number: u64)
        requires { 20 ≤ self.old.start }
        ensures text { text_of self.new ≡ decimal number ++ text_of self.old }
        ensures start { (self.new.start < self.old.start) × (self.old.start ≤ self.new.start + 20) }
    {
        self.start = write_digits(number, &mut self.bytes, self.start);
    }

    #[inline(always)]
    fn field(&mut self, number: u64)
        requires { 21 ≤ self.old.start }
        ensures text { text_of self.new ≡ field number ++ text_of self.old }
        ensures start { self.old.start ≤ self.new.start + 21 }
    {
        self.number(number);
        self.put(b',');
    }

    fn signed_field(&mut self, number: i64)
        requires { 22 ≤ self.old.start }
        ensures text { text_of self.new ≡ signed_field number ++ text_of self.old }
        ensures start { self.old.start ≤ self.new.start + 22 }
    {
        self.number(number.unsigned_abs());
        if number < 0 {
            self.put(b'-');
        }
        self.put(b',');
    }

    /// What is written.
    pub(crate) fn as_str(&self) -> &str
        ensures text { result.now ≡ text_of self.now }
        ensures short { length result.now ≤ LINE_BYTES }
    {
        // All of it is ASCII, so no test is needed.
        unsafe { std::str::from_utf8_unchecked(&self.bytes[self.start..]) }
    }
}

impl ReportLine {
    ghost use Rattle.report.specs.LineTexts.{text_of};

    /// Writes the line to a text, in place of what is there.
    // In place: a text that is copied as soon as it is made takes longer.
    pub(crate) fn write_to(&self, text: &mut LineText)
        ensures { text_of text.new ≡ shown_line self.now }
    {
        *text = LineText::new();
        match *self {
            ReportLine::Accepted { line, answers } => {
                text.field(answers.second);
                text.field(answers.first);
                text.put(b'A');
                text.put(b',');
                text.number(line);
            }
            ReportLine::Refused { line, code } => {
                text.field(code.place);
                text.field(code.number);
                text.put(code.layer.letter());
                text.put(b',');
                text.put(b'R');
                text.put(b',');
                text.number(line);
            }
            ReportLine::Member {
                member,
                position,
                clearing,
                free_position,
                free_clearing,
            } => {
                text.signed_field(free_clearing);
                text.signed_field(free_position);
                text.field(clearing);
                text.field(position);
                text.field(member);
                text.put(b'M');
            }
        }
    }
}
