// Reads a day sheet from standard input, runs it and prints the report.
#![tactic(auto)]

ghost use Rattle.std.specs.Prelude.{◌≡◌, ◌==◌, [], All, IfOk, OnErr, OnOk, codes, length, not, string_bytes};
ghost use Rattle.console.specs.Printing.{DayCut, DayPrinted};

mod help;

use anyhow::bail;
use console::run_day;
use help::HELP;
use std::alloc::Global;
use std::env;
use std::io::{BufWriter, Read, Write};

/// Whether the arguments ask for help; none but that is known.
fn asks_help(args: &[String]) -> anyhow::Result<bool>
    ensures asked { IfOk result (λ asked. asked ≡ not (length args.now == 0)) }
    ensures known { OnOk result (All (λ word. string_bytes word ≡ codes "--help") args.now) }
{
    if let Some(word) = args.iter().find(|word| word.as_str() != "--help") {
        bail!("unknown argument {word:?}, and only --help is known");
    }
    Ok(!args.is_empty())
}

/// Prints the help that the arguments ask for, or runs a sheet and prints its report.
fn run<I: Read + Drop, O: Write>(
    heap: Global,
    args: &[String],
    input: I,
    out: &mut O,
) -> anyhow::Result<()>
    ensures day { args.now ≡ [] →
        OnOk result
        (DayPrinted (I.Read.remaining input)
        (O.Write.contents out.old) (O.Write.contents out.new)) }
    ensures cut { args.now ≡ [] →
        OnErr result
        (DayCut (I.Read.remaining input)
        (O.Write.contents out.old) (O.Write.contents out.new)) }
    ensures known { OnOk result (All (λ word. string_bytes word ≡ codes "--help") args.now) }
{
    if !asks_help(args)? {
        return run_day(heap, input, out);
    }
    out.write_all(HELP.as_bytes())?;
    out.flush()?;
    Ok(())
}

fn main(rt: HostRuntime) -> anyhow::Result<()> {
    let args: Vec<String> = env::args(&rt)?.skip(1).collect(rt.alloc())?;
    let mut out = BufWriter::new(rt.alloc(), rt.stdout())?;
    run(rt.alloc(), args.as_slice(), rt.stdin(), &mut out)
}

#[cfg(test)]
mod tests {
    use super::*;

    const VERBS: [&str; 15] = [
        "INS", "DEP", "WDR", "SHF", "GIN", "GOT", "ORD", "CXL", "TRD", "RTE", "EOT", "FND", "DLV",
        "DFT", "EOD",
    ];

    fn printed(rt: &HostRuntime, args: &[&str]) -> anyhow::Result<String> {
        let mut words = Vec::new(rt.alloc());
        for word in args {
            words.push(String::from_str(rt.alloc(), word)?)?;
        }
        let mut out = Vec::new(rt.alloc());
        run(
            rt.alloc(),
            words.as_slice(),
            "DEP,1,P,5\n".as_bytes(),
            &mut out,
        )?;
        Ok(String::from_utf8(out)?)
    }

    #[test]
    fn runs_a_sheet(rt: HostRuntime) -> anyhow::Result<()> {
        let report = printed(&rt, &[])?;
        assert_eq!(rt; report.as_str(), "1,A,5,0\nM,1,5,0,5,0\n");
        Ok(())
    }

    #[test]
    fn helps(rt: HostRuntime) -> anyhow::Result<()> {
        let text = printed(&rt, &["--help"])?;
        assert_eq!(rt; text.as_str(), HELP);
        for verb in VERBS {
            assert!(rt; text.contains(verb), "{verb} has no line");
        }
        Ok(())
    }

    #[test]
    fn takes_no_other_argument(rt: HostRuntime) -> anyhow::Result<()> {
        for args in [["--helP", "--help"], ["--help", "sheet.txt"]] {
            assert!(rt; printed(&rt, &args).is_err());
        }
        Ok(())
    }
}
