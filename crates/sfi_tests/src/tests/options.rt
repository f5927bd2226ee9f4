//! What the words of a command line ask for, as values.
use super::{Outcome, words_of};
use sfi_tool::{Job, job_of, run_tool};
use std::alloc::{AllocError, Global};
use std::test::Fail;

/// The job that the command line asks for; the test fails where it asks for none.
fn job(alloc: Global, line: &str) -> Result<Job, Fail> {
    let words = words_of(alloc, line)?;
    Ok(job_of(alloc, words.as_slice())?)
}

// A run, how many rounds and which quantum it asks for, the bytes of its input, and whether it
// asks for a report.
struct Run(&'static str, (u32, u32), &'static [u8], bool);

/// What counts where an option is missing, each option, and values at their bounds.
const RUNS: &[Run] = &[
    Run("sfi run", (1, 1000), b"", false),
    Run("sfi run --input=", (1, 1000), b"", false),
    Run("sfi run --rounds 10000 --quantum 1", (10000, 1), b"", false),
    Run(
        "sfi run --rounds=7 --quantum 1000000",
        (7, 1000000),
        b"",
        false,
    ),
    Run("sfi run --input 004aFf", (1, 1000), b"\x00\x4a\xff", false),
    Run("sfi run --report --rounds 2", (2, 1000), b"", true),
];

/// The options of `sfi run`, as docs/sfi.1 describes them.
#[test]
fn run_options(rt: HostRuntime) -> Result<(), Fail> {
    for Run(line, numbers, bytes, reports) in RUNS {
        let Job::Run(options) = job(rt.alloc(), line)? else {
            return Err(Fail::new("no run"));
        };
        assert_eq!(rt; (options.rounds, options.quantum), *numbers, "{line}");
        assert_eq!(rt; options.input.as_slice(), *bytes, "{line}");
        assert_eq!(rt; options.report, *reports, "{line}");
    }
    Ok(())
}

/// The places of `--at` are for the sandboxes in the order of the words; their hexadecimal digits
/// may be fewer than 8 and of either case.
#[test]
fn places_in_order(rt: HostRuntime) -> Result<(), Fail> {
    let line = "sfi build --at 1:fFfFfFfF --at 00000abc:0";
    let Job::Build { places, .. } = job(rt.alloc(), line)? else {
        return Err(Fail::new("no build"));
    };
    let [first, second] = places.as_slice() else {
        return Err(Fail::new("two places"));
    };
    assert_eq!(rt; (first.code_base, first.data_base), (0x1, 0xffff_ffff));
    assert_eq!(rt; (second.code_base, second.data_base), (0xabc, 0x0));
    Ok(())
}

/// Runs `sfi run --input TEXT`, where the text may have white space, which `words_of` would part,
/// with `reader` as standard input.
fn run_on(alloc: Global, text: &str, reader: &mut &[u8]) -> Result<Outcome, AllocError> {
    let mut words = words_of(alloc, "sfi run --input")?;
    words.push(String::from_str(alloc, text)?)?;
    let mut printed = Vec::new(alloc);
    let status = run_tool(alloc, words.as_slice(), reader, &mut printed);
    Ok(Outcome {
        status,
        text: printed,
    })
}

/// Texts that are no hexadecimal digits of whole bytes.
const NO_BYTES: &[&str] = &["0", "4 8", " 48", "4g", "0x48", "48\n"];

/// Such a text is refused with a fault's line and status 2, before standard input is read.
#[test]
fn option_hex(rt: HostRuntime) -> Result<(), Fail> {
    for text in NO_BYTES {
        let mut reader = b"4".as_slice();
        let Outcome {
            status,
            text: printed,
        } = run_on(rt.alloc(), text, &mut reader)?;
        assert_eq!(rt; status, 2, "{text}");
        assert_eq!(rt;
            printed.as_slice(),
            b"option fault hex\n".as_slice(),
            "{text}"
        );
        assert_eq!(rt; reader, b"4".as_slice(), "{text}");
    }
    Ok(())
}
