//! Readers and writers that fail at some call, or that give and take little at a time; inputs as long as a command takes, and
//! one byte longer; a host that has no memory for a reply, and has it later.
use super::commands::{COMMANDS, Command, command_of};
use super::images::{DATA, SFI1, bytes_of, hi_pieces};
use rv_mem::{Memory, Pages};
use sfi_check::check;
use sfi_host::{Console, GateAnswer, Gates, Guest, RunAnswer, Status, Turn, World};
use sfi_tool::run_tool;
use std::alloc::{AllocError, Global};
use std::io::{self, ErrorKind, Read, Write};
use std::test::Fail;

/// A reader that gives at most `step` bytes of `rest` at a call. After `calls` calls each further
/// one fails.
#[derive(Drop)]
pub(super) struct Tap<'a> {
    pub(super) rest: &'a [u8],
    pub(super) step: usize,
    pub(super) calls: usize,
    pub(super) has_failed: bool,
    /// Whether a call came after one that failed, which no caller should make.
    pub(super) is_tried_again: bool,
}

impl<'a> Read for Tap<'a> {
    /// Gives the next bytes, at most `step` and as many as `buf` holds, or 0 at the end; fails, as
    /// an interrupted read does, where `calls` is 0.
    fn read(&mut self, buf: &mut [u8]) -> io::Result<usize> {
        self.is_tried_again |= self.has_failed;
        if self.calls == 0 {
            self.has_failed = true;
            return Err(io::Error::from(ErrorKind::Interrupted));
        }
        self.calls -= 1;
        let len = buf.len().min(self.step);
        self.rest.read(&mut buf[..len])
    }
}

/// A writer that takes at most `step` bytes at a call. After `calls` calls each further one fails
/// if `fails`, and else takes 0 bytes.
#[derive(Drop)]
pub(super) struct Sink {
    pub(super) taken: Vec<u8>,
    pub(super) step: usize,
    pub(super) calls: usize,
    pub(super) fails: bool,
    pub(super) has_refused: bool,
    /// Whether a call came after one that failed or took nothing, which no caller should make.
    pub(super) is_tried_again: bool,
}

impl Write for Sink {
    /// Takes the first bytes of `buf`, at most `step`, and gives their count; where `calls` is 0
    /// fails, as an interrupted write does, or takes 0 bytes.
    fn write(&mut self, buf: &[u8]) -> io::Result<usize> {
        self.is_tried_again |= self.has_refused;
        if self.calls == 0 {
            self.has_refused = true;
            if self.fails {
                return Err(io::Error::from(ErrorKind::Interrupted));
            }
            return Ok(0);
        }
        self.calls -= 1;
        let count = buf.len().min(self.step);
        self.taken.extend_from_slice(&buf[..count])?;
        Ok(count)
    }

    /// Does nothing: no byte that was taken waits.
    fn flush(&mut self) -> io::Result<()> {
        Ok(())
    }
}

/// How many bytes a read and a write move at most, how many reads and writes work, and whether a
/// write after these fails, or else takes 0 bytes. A read after these fails.
#[derive(Drop)]
struct Pace {
    step: usize,
    reads: usize,
    writes: usize,
    fails: bool,
}

/// How many bytes a read or a write moves at most, but where single bytes are tried.
const STEP: usize = 61;

/// So many calls work that none fails.
const NEVER: Pace = Pace {
    step: STEP,
    reads: 100_000,
    writes: 100_000,
    fails: true,
};

/// How a command ended: its status, what it printed, and whether it called a reader or a writer
/// again that had failed.
#[derive(Drop)]
struct Ended {
    status: u8,
    printed: Vec<u8>,
    is_tried_again: bool,
}

impl Ended {
    // Whether it ended with this status, having printed `printed`, and tried no failed call again.
    fn is(&self, status: u8, printed: &[u8]) -> bool {
        self.status == status && self.printed.as_slice() == printed && !self.is_tried_again
    }
}

/// The words of a command line, which white space parts; the first is `sfi`.
fn words_of(alloc: Global, line: &str) -> Result<Vec<String>, AllocError> {
    let mut words = Vec::new(alloc);
    for word in line.split_whitespace() {
        words.push(String::from_str(alloc, word)?)?;
    }
    Ok(words)
}

/// Runs the command line over `input`, with reads and writes of this pace.
fn run(alloc: Global, line: &str, input: &[u8], pace: Pace) -> Result<Ended, AllocError> {
    let words = words_of(alloc, line)?;
    let mut reader = Tap {
        rest: input,
        step: pace.step,
        calls: pace.reads,
        has_failed: false,
        is_tried_again: false,
    };
    let mut writer = Sink {
        taken: Vec::new(alloc),
        step: pace.step,
        calls: pace.writes,
        fails: pace.fails,
        has_refused: false,
        is_tried_again: false,
    };
    let status = run_tool(alloc, words.as_slice(), &mut reader, &mut writer);
    Ok(Ended {
        status,
        printed: writer.taken,
        is_tried_again: reader.is_tried_again || writer.is_tried_again,
    })
}

/// Whether the command ends in status 5 and prints nothing where any of its reads fails, and as
/// `whole` where none does. It makes a read for each piece of `STEP` bytes of the input and one
/// that finds its end, and maybe one before them, of the magic alone.
fn ends_right_if_reads_fail(
    alloc: Global,
    line: &str,
    input: &[u8],
    whole: &Ended,
) -> Result<bool, AllocError> {
    let least = input.len().div_ceil(STEP).saturating_add(1);
    for reads in 0..least.saturating_add(1) {
        let ended = run(alloc, line, input, Pace { reads, ..NEVER })?;
        if !ended.is(5, b"") {
            return Ok(reads == least && ended.is(whole.status, whole.printed.as_slice()));
        }
    }
    let pace = Pace {
        reads: least.saturating_add(1),
        ..NEVER
    };
    let ended = run(alloc, line, input, pace)?;
    Ok(ended.is(whole.status, whole.printed.as_slice()))
}

/// Whether the command ends in status 5 after any write that fails, or that takes nothing, with
/// only what the writes before it took printed; and as `whole` where none fails.
fn ends_right_if_writes_fail(
    alloc: Global,
    line: &str,
    input: &[u8],
    whole: &Ended,
) -> Result<bool, AllocError> {
    let text = whole.printed.as_slice();
    let enough = text.len().div_ceil(STEP);
    for writes in 0..enough {
        let taken = &text[..writes.saturating_mul(STEP).min(text.len())];
        for fails in [true, false] {
            let pace = Pace {
                writes,
                fails,
                ..NEVER
            };
            let ended = run(alloc, line, input, pace)?;
            if !ended.is(5, taken) {
                return Ok(false);
            }
        }
    }
    let pace = Pace {
        writes: enough,
        ..NEVER
    };
    let ended = run(alloc, line, input, pace)?;
    Ok(ended.is(whole.status, text))
}

/// Whether the command ends as `whole` where each read and each write moves one byte.
fn small_steps_are_taken(
    alloc: Global,
    line: &str,
    input: &[u8],
    whole: &Ended,
) -> Result<bool, AllocError> {
    let ended = run(alloc, line, input, Pace { step: 1, ..NEVER })?;
    Ok(ended.is(whole.status, whole.printed.as_slice()))
}

/// Whether the command ends with its row's status, its text beginning as the row's, where nothing
/// fails, and as the three functions above say where reads or writes fail or are small.
fn ends_right(alloc: Global, command: &Command<'_>) -> Result<bool, Fail> {
    let line = command.line;
    let input = command.input(alloc)?;
    let whole = run(alloc, line, &input, NEVER)?;
    Ok(
        whole.status == command.status
            && whole.printed.starts_with(command.front.as_bytes())
            && ends_right_if_reads_fail(alloc, line, &input, &whole)?
            && ends_right_if_writes_fail(alloc, line, &input, &whole)?
            && small_steps_are_taken(alloc, line, &input, &whole)?,
    )
}

/// Each row of `COMMANDS`, with a failure of each of its reads and writes.
#[test]
fn commands_end_at_what_fails(rt: HostRuntime) -> Result<(), Fail> {
    for row in COMMANDS.split("\n= ").skip(1) {
        let Some(command) = command_of(row) else {
            return Err(Fail::new(row));
        };
        assert!(rt; ends_right(rt.alloc(), &command)?, "{row}");
    }
    Ok(())
}

// ---- long inputs, of which the test keeps one piece

/// Gives the bytes of `piece` again and again, until `left` bytes are given.
#[derive(Drop)]
struct Repeated<'a> {
    piece: &'a [u8],
    left: usize,
}

impl<'a> Read for Repeated<'a> {
    /// Gives bytes from the front of `piece`, as many as there are, as `buf` holds and as are left.
    fn read(&mut self, buf: &mut [u8]) -> io::Result<usize> {
        let count = buf.len().min(self.piece.len()).min(self.left);
        buf[..count].copy_from_slice(&self.piece[..count]);
        self.left -= count;
        Ok(count)
    }
}

/// The most bytes of an input: `INPUT_LIMIT` of crates/sfi_io.
const LIMIT: usize = 134217728;

/// Whether the command, given `count` bytes of value `byte`, prints exactly `said` and ends in
/// status 2.
fn is_refused(
    alloc: Global,
    command: &str,
    byte: u8,
    count: usize,
    said: &str,
) -> Result<bool, AllocError> {
    let words = words_of(alloc, command)?;
    let piece = [byte; 65536];
    let mut reader = Repeated {
        piece: &piece,
        left: count,
    };
    let mut text = Vec::new(alloc);
    let status = run_tool(alloc, words.as_slice(), &mut reader, &mut text);
    Ok(status == 2 && text.as_slice() == said.as_bytes())
}

/// White space that is one byte too long is refused for its length.
#[test]
fn an_image_above_the_limit(rt: HostRuntime) -> Result<(), Fail> {
    let said = "input fault too large\n";
    assert!(rt; is_refused(rt.alloc(), "sfi check", b' ', LIMIT + 1, said)?);
    Ok(())
}

/// A text above the limit is refused for its length, before it is found to be no UTF-8.
#[test]
fn a_source_above_the_limit(rt: HostRuntime) -> Result<(), Fail> {
    let said = "input fault too large\n";
    assert!(rt; is_refused(rt.alloc(), "sfi build", 0xff, LIMIT + 1, said)?);
    Ok(())
}

/// A text at the limit is read, and then refused for what it has: no UTF-8.
#[test]
fn a_source_at_the_limit(rt: HostRuntime) -> Result<(), Fail> {
    let said = "input fault utf8\n";
    assert!(rt; is_refused(rt.alloc(), "sfi build", 0xff, LIMIT, said)?);
    Ok(())
}

/// The bytes of an image are read no further than its first fault, so that an endless input ends
/// the command.
#[test]
fn bytes_without_end(rt: HostRuntime) -> Result<(), Fail> {
    let said = "layout fault 1 Magic\n";
    assert!(rt; is_refused(rt.alloc(), "sfi check --raw", b' ', usize::MAX, said)?);
    Ok(())
}

// ---- a host without memory

/// A console whose memory is gone while `is_gone`: then it answers each put with `Memory`.
#[derive(Drop)]
struct Scarce {
    console: Console,
    is_gone: bool,
}

/// The service that appends bytes to the caller's output.
const PUT: u32 = 1;

impl Gates for Scarce {
    ghost use Rattle.std.specs.Prelude.{true};
    ghost use Rattle.sfi_host.specs.Consoles.{console};

    ghost answer = { λ s c. record {
      reply = (console s.console c).reply;
      host = record s { console = (console s.console c).host };
    } };

    ghost may_refuse = { λ s c. true };

    /// Answers as the console does, as `answer` says, but a put while memory is gone with `Memory`,
    /// as `may_refuse` allows. Both are proved: a change here needs the same there.
    fn call<M: Memory>(&mut self, guest: &mut Guest<'_, M>) -> GateAnswer {
        if self.is_gone && guest.service() == PUT {
            return GateAnswer::Memory;
        }
        self.console.call(guest)
    }
}

/// One turn of the one sandbox.
const PLAN: [Turn; 1] = [Turn {
    sandbox: 0,
    steps: 1000,
}];

/// A put that is answered with `Memory` ends the plan, and leaves what was done before it: 4 steps.
/// The same plan again, once there is memory, does the rest, as if nothing had failed: 19 steps in
/// all, and the output `Hi`.
#[test]
fn a_refused_put_is_served_later(rt: HostRuntime) -> Result<(), Fail> {
    let alloc = rt.alloc();
    let bytes = bytes_of(alloc, &hi_pieces(SFI1, DATA))?;
    let accepted = check(alloc, bytes.as_slice())?;
    let mut world = World::load(alloc, &accepted, Pages::new(alloc))?;
    let mut host = Scarce {
        console: Console::new(alloc, 1, b"")?,
        is_gone: true,
    };
    let answer = world.run_plan(&PLAN, &mut host);
    assert_eq!(rt; answer, RunAnswer::Memory { turn: 0 });
    assert_eq!(rt; world.steps(0), Some(4));
    assert_eq!(rt; world.status(0), Some(Status::Ready));
    host.is_gone = false;
    assert_eq!(rt; world.run_plan(&PLAN, &mut host), RunAnswer::Done);
    assert_eq!(rt; world.steps(0), Some(19));
    assert_eq!(rt; world.status(0), Some(Status::Exited(105)));
    assert_eq!(rt; host.console.output(0), Some(b"Hi".as_slice()));
    Ok(())
}
