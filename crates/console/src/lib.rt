// A day sheet from a reader, and its report to a writer.
#![tactic(auto)]

ghost use Rattle.std.specs.Prelude.{◌≡◌, ◌≢◌, Some, string_bytes, take, IfErr, IfOk, IfSome, OnErr, OnOk};
ghost use Rattle.std.specs.Io.KnownBytes.{Appends};
ghost use Rattle.std.specs.IoError.{error_kind};
ghost use Rattle.console.specs.Printing.{AppendsFront, DayCut, DayPrinted, PercentDay};

use charge::PercentRule;
use rules::{MAX_INSTRUMENT, MAX_MEMBER, MAX_SHEET_BYTES};
use std::alloc::{AllocError, Global};
use std::io;
use std::io::{Error, ErrorKind, Read, Write};

/// One byte more than a sheet may have: enough to see that it is too long.
const MAX_READ: u64 = MAX_SHEET_BYTES as u64 + 1;

/// The members who can be known.
const MEMBERS: usize = MAX_MEMBER as usize + 1;

/// Position and clearing money of each.
const MONEY_REGISTERS: usize = 2 * MEMBERS;

/// The goods of each instrument of each.
const GOODS_REGISTERS: usize = (MAX_INSTRUMENT as usize + 1) * MEMBERS;

/// The number of writes after which a text is given up.
const MAX_WRITES: u64 = u64::MAX;

/// Reads a sheet: all that a reader has left, or as much of it as shows that it is too long.
pub fn read_sheet<I: Read + Drop>(heap: Global, input: I) -> io::Result<Vec<u8>>
    ensures { IfOk result (λ sheet.
        IfSome (I.Read.remaining input) (λ bytes. sheet.items ≡ take 65537 bytes)) }
{
    let mut sheet = Vec::new(heap);
    input.take(MAX_READ).read_to_end(&mut sheet)?;
    Ok(sheet)
}

/// Runs a day sheet by the percent rule over empty tables, and writes its report.
fn run_sheet(heap: Global, sheet: &[u8]) -> Result<String, AllocError>
    ensures { IfOk result (λ text. PercentDay sheet.now (string_bytes text)) }
{
    let mut money = [0u64; MONEY_REGISTERS];
    let mut goods = [0u64; GOODS_REGISTERS];
    report::run_day(heap, sheet, &mut money, &mut goods, PercentRule)
}

/// Writes a text, however little of it each write takes. A write that a signal interrupts is tried again.
fn write_text<O: Write>(out: &mut O, text: &[u8]) -> io::Result<()>
    ensures ok { OnOk result
        (Appends (O.Write.contents out.old) (O.Write.contents out.new) text.now) }
    ensures err { OnErr result
        (AppendsFront (O.Write.contents out.old) (O.Write.contents out.new) text.now) }
    ensures retried { IfErr result (λ e. error_kind e ≢ ErrorKind.Interrupted) }
{
    let mut written = 0;
    for _ in 0..MAX_WRITES {
        if written == text.len() {
            return Ok(());
        }
        match out.write(&text[written..]) {
            Ok(0) => return Err(Error::new(ErrorKind::WriteZero, "failed to write whole buffer")),
            Ok(n) => written += n,
            Err(e) if e.kind() == ErrorKind::Interrupted => {}
            Err(e) => return Err(e),
        }
    }
    Err(Error::new(ErrorKind::TimedOut, "gave up writing after 2^64 tries"))
}

/// Runs a day: its sheet from a reader, its report to a writer. After an error the writer has as much of the report as
/// was written, and nothing else.
pub fn run_day<I: Read + Drop, O: Write>(heap: Global, input: I, out: &mut O) -> anyhow::Result<()>
    ensures ok { OnOk result
        (DayPrinted (I.Read.remaining input)
        (O.Write.contents out.old) (O.Write.contents out.new)) }
    ensures err { OnErr result
        (DayCut (I.Read.remaining input)
        (O.Write.contents out.old) (O.Write.contents out.new)) }
{
    let sheet = read_sheet(heap, input)?;
    let text = run_sheet(heap, sheet.as_slice())?;
    write_text(out, text.as_bytes())?;
    out.flush()?;
    Ok(())
}

#[cfg(test)]
mod tests {
    use super::*;

    const SHEET: &str = "DEP,1,P,5\n";

    const REPORT: &str = "1,A,5,0\nM,1,5,0,5,0\n";

    /// A reader that fails.
    #[derive(Drop)]
    struct Unreadable;

    impl Read for Unreadable {
        fn read(&mut self, _buf: &mut [u8]) -> io::Result<usize> {
            Err(Error::other("unreadable"))
        }
    }

    /// A writer that takes so many bytes at a call, and fails once: at such a call, and in such a way.
    #[derive(Drop)]
    struct Narrow {
        held: Vec<u8>,
        width: usize,
        calls: usize,
        failing: usize,
        kind: ErrorKind,
    }

    impl Narrow {
        fn call(&mut self) -> io::Result<()>
            ensures { self.new.held ≡ self.old.held }
        {
            self.calls = self.calls.wrapping_add(1);
            if self.calls == self.failing {
                return Err(Error::new(self.kind, "full"));
            }
            Ok(())
        }
    }

    impl Write for Narrow {
        ghost contents = { λ w. Some w.held.items };

        fn write(&mut self, buf: &[u8]) -> io::Result<usize> {
            self.call()?;
            let n = buf.len().min(self.width);
            self.held.extend_from_slice(&buf[..n])?;
            Ok(n)
        }

        fn flush(&mut self) -> io::Result<()> {
            self.call()
        }
    }

    /// What a writer holds after a day, and the error that came back, if one did.
    fn run<I: Read + Drop>(
        rt: &HostRuntime,
        input: I,
        width: usize,
        failing: usize,
        kind: ErrorKind,
    ) -> anyhow::Result<(String, String)> {
        let mut out = Narrow {
            held: Vec::new(rt.alloc()),
            width,
            calls: 0,
            failing,
            kind,
        };
        let error = match run_day(rt.alloc(), input, &mut out) {
            Ok(()) => String::new(rt.alloc()),
            Err(e) => format!(in rt.alloc(); "{e}")?,
        };
        Ok((String::from_utf8(out.held)?, error))
    }

    #[test]
    fn keeps_what_is_written(rt: HostRuntime) -> anyhow::Result<()> {
        let whole = REPORT.len();
        for (width, failing, kind, len, error) in [
            (1, 0, ErrorKind::BrokenPipe, whole, ""),
            (64, 0, ErrorKind::BrokenPipe, whole, ""),
            (64, 1, ErrorKind::BrokenPipe, 0, "full"),
            (1, 4, ErrorKind::BrokenPipe, 3, "full"),
            (7, 3, ErrorKind::StorageFull, 14, "full"),
            (7, 3, ErrorKind::Interrupted, whole, ""),
            (64, 2, ErrorKind::BrokenPipe, whole, "full"),
            (
                0,
                0,
                ErrorKind::BrokenPipe,
                0,
                "failed to write whole buffer",
            ),
        ] {
            let (held, message) = run(&rt, SHEET.as_bytes(), width, failing, kind)?;
            assert_eq!(rt; held.as_str(), &REPORT[..len], "{width} bytes, {failing}");
            assert_eq!(rt; message.as_str(), error, "{width} bytes, {failing}");
        }
        Ok(())
    }

    #[test]
    fn writes_nothing_of_a_sheet_that_is_not_read(rt: HostRuntime) -> anyhow::Result<()> {
        let input = SHEET.as_bytes().chain(Unreadable);
        let (held, message) = run(&rt, input, 64, 0, ErrorKind::BrokenPipe)?;
        assert_eq!(rt; held.as_str(), "");
        assert_eq!(rt; message.as_str(), "unreadable");
        Ok(())
    }
}
