// The numbers of a day sheet.
ghost use Rattle.sheet.specs.Forms.{ReadsNumber};

/// The most digits of a number.
const MAX_DIGITS: usize = 16;

/// The number that `text` writes in base ten, with no leading zero but in 0 itself.
pub(crate) fn number(text: &[u8]) -> Option<u64>
    ensures { ReadsNumber text.now result }
{
    match text {
        [] | [b'0', _, ..] => None,
        _ if text.len() > MAX_DIGITS => None,
        _ => {
            // The library's parser also takes a sign and zeros in front, and takes three times as long.
            let mut n = 0;
            for b in text {
                n = n * 10 + u64::from(char::from(*b).to_digit(10)?);
            }
            Some(n)
        }
    }
}
