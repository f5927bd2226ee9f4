//! `exec`, which runs an image's sandboxes as a process, over streams of which one fails. What it
//! has to end with follows from docs/sfi.1 and the documentation of `Ended` and `ExecFault`.
use super::failing::{Sink, Tap};
use super::images::{C_EBREAK, EBREAK, HEAD, PAIR_ON_X0, SFI1, digits_of};
use sfi_tool::{Ended, ExecFault, Interruption, exec, read_image};
use std::alloc::Global;
use std::test::Fail;

/// A program that puts two letters, gets a byte, and exits with how many it got: its image's digits
/// after the magic and up to the fill.
const ASKS: &str = "0100000000000001000100000000800100010000300000010300000002000000\
    000000010100000010000001020000002000000100000000\
    73000000b3ff9001b3ef8f0167800f0073000000b3ff9001b3ef8f0167800f0073000000b3ff9001b3ef8f0167800f00\
    370580011305050093052000eff05ffc370580011305050093051000eff05ffc010001000100010001000100eff05ffc";

/// How many calls work of each stream: the image's file, standard input, output and error. The next
/// one fails.
#[derive(Clone, Copy)]
struct Calls {
    image: usize,
    input: usize,
    output: usize,
    errors: usize,
}

/// An image, the calls that work, how the reading of the image or `exec` ends, all that was then
/// written to standard output, and how what was written to standard error begins; where `said` is
/// empty nothing was.
struct Row {
    image: &'static [(&'static str, usize)],
    calls: Calls,
    ends: Result<Ended, ExecFault>,
    put: &'static str,
    said: &'static str,
}

/// More calls than any row makes, so that none fails.
const ALL: Calls = Calls {
    image: 100,
    input: 100,
    output: 100,
    errors: 100,
};

/// The image of the program `ASKS`, with its data `Hi`.
const ASKING: &[(&str, usize)] = &[(SFI1, 1), (ASKS, 1), (C_EBREAK, 80), ("4869", 1)];

/// The smallest image, whose first instruction is an `ebreak`.
const TRAPPING: &[(&str, usize)] = &[(SFI1, 1), (HEAD, 1), (EBREAK, 64)];

/// An image that the checker refuses: a store after a pair on x0.
const REFUSED: &[(&str, usize)] = &[(SFI1, 1), (HEAD, 1), (PAIR_ON_X0, 1), (EBREAK, 61)];

const ROWS: [Row; 9] = [
    Row {
        image: ASKING,
        calls: ALL,
        ends: Ok(Ended {
            status: 1,
            told: true,
        }),
        put: "Hi",
        said: "",
    },
    Row {
        image: ASKING,
        calls: Calls { image: 0, ..ALL },
        ends: Err(ExecFault::Image),
        put: "",
        said: "",
    },
    Row {
        image: ASKING,
        calls: Calls { input: 0, ..ALL },
        ends: Err(ExecFault::Interrupted(Interruption::Read)),
        put: "Hi",
        said: "",
    },
    Row {
        image: ASKING,
        calls: Calls { output: 0, ..ALL },
        ends: Err(ExecFault::Interrupted(Interruption::Write)),
        put: "",
        said: "",
    },
    Row {
        image: TRAPPING,
        calls: ALL,
        ends: Ok(Ended {
            status: 126,
            told: true,
        }),
        put: "",
        said: "sandbox=0 trap=Break at=01000000 steps=0\n",
    },
    Row {
        image: TRAPPING,
        calls: Calls { errors: 0, ..ALL },
        ends: Ok(Ended {
            status: 126,
            told: false,
        }),
        put: "",
        said: "",
    },
    Row {
        image: REFUSED,
        calls: ALL,
        ends: Err(ExecFault::NotAccepted),
        put: "",
        said: "refused findings=1 first=V5 sandbox=0 at=01000008\n",
    },
    Row {
        image: REFUSED,
        calls: Calls { errors: 0, ..ALL },
        ends: Err(ExecFault::Interrupted(Interruption::Write)),
        put: "",
        said: "",
    },
    Row {
        image: &[(SFI1, 1)],
        calls: ALL,
        ends: Err(ExecFault::NotAccepted),
        put: "",
        said: "layout fault 3 Short\n",
    },
];

/// A reader of these bytes that fails after `calls` calls.
fn tap(rest: &[u8], calls: usize) -> Tap<'_> {
    Tap {
        rest,
        step: 100,
        calls,
        has_failed: false,
        is_tried_again: false,
    }
}

/// A writer that fails after `calls` calls.
fn sink(alloc: Global, calls: usize) -> Sink {
    Sink {
        taken: Vec::new(alloc),
        step: 100,
        calls,
        fails: true,
        has_refused: false,
        is_tried_again: false,
    }
}

/// Whether `exec` ends as the row says, and no stream but the image's was called again after a call
/// of it failed.
fn is_right(alloc: Global, row: &Row) -> Result<bool, Fail> {
    let text = digits_of(alloc, row.image)?;
    let image = tap(text.as_bytes(), row.calls.image);
    let mut input = tap(b"x", row.calls.input);
    let mut output = sink(alloc, row.calls.output);
    let mut errors = sink(alloc, row.calls.errors);
    let ends = match read_image(alloc, image) {
        Ok(image) => exec(alloc, 1000, &image, &mut input, &mut output, &mut errors),
        Err(fault) => Err(fault),
    };
    Ok(
        ends == row.ends
            && output.taken.as_slice() == row.put.as_bytes()
            && errors.taken.starts_with(row.said.as_bytes())
            && errors.taken.is_empty() == row.said.is_empty()
            && !input.is_tried_again
            && !output.is_tried_again
            && !errors.is_tried_again,
    )
}

/// Each row: `exec` ends where a stream fails, and its answer tells so.
#[test]
fn exec_ends_at_what_fails(rt: HostRuntime) -> Result<(), Fail> {
    for row in ROWS.iter() {
        assert!(rt; is_right(rt.alloc(), row)?, "{}", row.said);
    }
    Ok(())
}
