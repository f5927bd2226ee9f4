//! One call of a sandbox, whose put writes to a process's output and whose get reads its input.

ghost use Rattle.std.specs.Prelude.{◌≡◌, ◌≢◌, ◌≤◌, ℕ, List, Option, IfErr, IfOk, Some, None, length, take};
ghost use Rattle.std.specs.Bool.{OnTrue, OnFalse};
ghost use Rattle.std.specs.Io.KnownBytes.{Keeps};
ghost use Rattle.sfi_host.specs.Waiting.{Waits};
ghost use Rattle.sfi_host.specs.Worlds.{slots_of};
ghost use Rattle.sfi_host.specs.Consoles.{ConsoleState};
ghost use Rattle.sfi_tool.specs.private.{GoesOnWith, IsAnsweredBy, IsCut, IsPiece, IsServed, handed_by};

use crate::piece::Piece;
use rv_mem::Memory;
use sfi_host::{
    Console, FAILED, GET, Gates, Later, MOST_HANDED, PUT, Request, RunAnswer, Turn, World,
};
use sfi_io::write_out;
use std::io::{Read, Write};

/// How many bytes hold what one call hands over.
pub(crate) const BUFFER: usize = MOST_HANDED as usize;

/// What broke off a run, or before it the reading or the check of its image.
#[derive(Clone, Copy, Debug, Drop, PartialEq, Eq)]
pub enum Interruption {
    /// An allocation was refused.
    Memory,
    /// The input can't be read.
    Read,
    /// The output, or what is said of an image that isn't accepted, can't be written.
    Write,
}

/// Copies the a1 data bytes of a caller from its a0 on to the front of the buffer: what a put hands
/// over. `false` where these are more than 65536 or not all in its data, and then the call is to be
/// refused. A get is tested by it, too, and drops the bytes.
fn copy_handed<M: Memory>(world: &World<M>, request: Request, buffer: &mut [u8]) -> bool
    requires { length buffer.old ≡ 65536 }
    ensures few { OnTrue result (request.a1 ≤ 65536) }
    ensures handed { OnTrue result
        (handed_by (slots_of world.now) request ≡ Some (take request.a1 buffer.new)) }
    ensures refused { OnFalse result (handed_by (slots_of world.now) request ≡ None) }
{
    let count = request.a1 as usize;
    count <= BUFFER && world.read(request.sandbox, request.a0, &mut buffer[..count])
}

/// Has a host answer the call at which the sandbox of the request waits, by a turn of one step. An
/// error means that the host had no memory for the reply.
fn let_host_answer<M: Memory, G: Gates>(
    world: &mut World<M>,
    request: Request,
    gates: &mut G,
) -> Result<(), Interruption>
    requires { Waits (slots_of world.old) request.sandbox request }
    ensures { IfOk result (λ u. IsAnsweredBy G.answer request (slots_of world.old) gates.old
        (slots_of world.new) gates.new) }
{
    let turn = Turn {
        sandbox: request.sandbox,
        steps: 1,
    };
    match world.run_plan(&[turn], gates) {
        RunAnswer::Done => Ok(()),
        RunAnswer::Memory { .. } => Err(Interruption::Memory),
    }
}

/// Gives the caller this a0, and has it go on after the call in its next turn; its a1 stays.
fn reply_with<M: Memory>(
    world: &mut World<M>,
    request: Request,
    a0: u32,
) -> Result<(), Interruption>
    requires { Waits (slots_of world.old) request.sandbox request }
    ensures { IfOk result
        (λ u. GoesOnWith request a0 (slots_of world.old) (slots_of world.new)) }
{
    let mut later = Later {
        a0,
        a1: request.a1,
        exit: None,
    };
    let_host_answer(world, request, &mut later)
}

/// Answers a put: writes what it hands over, of any number of bytes in all, and a0 becomes its a1; or
/// `FAILED` where it is refused.
fn serve_put<M: Memory, W: Write>(
    world: &mut World<M>,
    request: Request,
    buffer: &mut [u8],
    writer: &mut W,
) -> Result<(), Interruption>
    requires put { request.service ≡ 1 }
    requires waits { Waits (slots_of world.old) request.sandbox request }
    requires buffer { length buffer.old ≡ 65536 }
    ensures served { (c : ConsoleState) → (known : Option (List ℕ)) → IfOk result (λ u. IsServed request.sandbox
        (slots_of world.old) c (slots_of world.new) c known known
        (W.contents writer.old) (W.contents writer.new)) }
    ensures cut { (c : ConsoleState) → IfErr result (λ e. IsCut request.sandbox
        (slots_of world.old) c (W.contents writer.old) (W.contents writer.new)) }
{
    if !copy_handed(world, request, buffer) {
        return reply_with(world, request, FAILED);
    }
    if !write_out(writer, &buffer[..request.a1 as usize]) {
        return Err(Interruption::Write);
    }
    reply_with(world, request, request.a1)
}

/// Writes what the writer holds back of what was put.
pub(crate) fn flush_output<W: Write>(writer: &mut W) -> Result<(), Interruption>
    ensures { Keeps (W.contents writer.old) (W.contents writer.new) }
{
    if writer.flush().is_err() {
        return Err(Interruption::Write);
    }
    Ok(())
}

/// Reads once into `piece`, for a get, after all that was put has been written: who types the input
/// has seen it then. The answer is how many bytes were read, which is 0 only at the input's end or
/// where `piece` is empty.
fn read_piece<R: Read, W: Write>(
    piece: &mut [u8],
    reader: &mut R,
    writer: &mut W,
) -> Result<usize, Interruption>
    ensures piece { IfOk result (λ n. IsPiece (length piece.old) (R.remaining reader.old)
        (R.remaining reader.new) (take n piece.new)) }
    ensures few { IfOk result (λ n. n ≤ length piece.old) }
    ensures flushed { Keeps (W.contents writer.old) (W.contents writer.new) }
{
    flush_output(writer)?;
    match reader.read(piece) {
        Ok(count) => Ok(count),
        Err(_) => Err(Interruption::Read),
    }
}

/// Answers a get: gives it what one read of the input gives, at most a1 bytes, and a0 becomes their
/// count; or `FAILED` where it is refused.
fn serve_get<M: Memory, R: Read, W: Write>(
    world: &mut World<M>,
    request: Request,
    buffer: &mut [u8],
    reader: &mut R,
    writer: &mut W,
) -> Result<(), Interruption>
    requires get { request.service ≡ 2 }
    requires waits { Waits (slots_of world.old) request.sandbox request }
    requires buffer { length buffer.old ≡ 65536 }
    ensures served { (c : ConsoleState) → IfOk result (λ u. IsServed request.sandbox
        (slots_of world.old) c (slots_of world.new) c (R.remaining reader.old) (R.remaining reader.new)
        (W.contents writer.old) (W.contents writer.new)) }
    ensures cut { (c : ConsoleState) → IfErr result (λ e. IsCut request.sandbox
        (slots_of world.old) c (W.contents writer.old) (W.contents writer.new)) }
{
    if !copy_handed(world, request, buffer) {
        return reply_with(world, request, FAILED);
    }
    let count = read_piece(&mut buffer[..request.a1 as usize], reader, writer)?;
    let mut piece = Piece {
        bytes: &buffer[..count],
    };
    let_host_answer(world, request, &mut piece)
}

/// Has a console answer a call, after all that was put has been written.
fn ask_console<M: Memory, W: Write>(
    world: &mut World<M>,
    request: Request,
    console: &mut Console,
    writer: &mut W,
) -> Result<(), Interruption>
    requires put { request.service ≢ 1 }
    requires get { request.service ≢ 2 }
    requires waits { Waits (slots_of world.old) request.sandbox request }
    ensures served { (known : Option (List ℕ)) → IfOk result (λ u. IsServed request.sandbox
        (slots_of world.old) console.old (slots_of world.new) console.new known known
        (W.contents writer.old) (W.contents writer.new)) }
    ensures cut { IfErr result (λ e. IsCut request.sandbox
        (slots_of world.old) console.old (W.contents writer.old) (W.contents writer.new)) }
{
    flush_output(writer)?;
    let_host_answer(world, request, console)
}

/// Answers a call: a put goes to the writer, a get reads from the reader, and the console answers
/// each other service.
pub(crate) fn serve_call<M: Memory, R: Read, W: Write>(
    world: &mut World<M>,
    request: Request,
    console: &mut Console,
    buffer: &mut [u8],
    reader: &mut R,
    writer: &mut W,
) -> Result<(), Interruption>
    requires waits { Waits (slots_of world.old) request.sandbox request }
    requires buffer { length buffer.old ≡ 65536 }
    ensures served { IfOk result (λ u. IsServed request.sandbox (slots_of world.old) console.old
        (slots_of world.new) console.new (R.remaining reader.old) (R.remaining reader.new)
        (W.contents writer.old) (W.contents writer.new)) }
    ensures cut { IfErr result (λ e. IsCut request.sandbox
        (slots_of world.old) console.old (W.contents writer.old) (W.contents writer.new)) }
{
    match request.service {
        PUT => serve_put(world, request, buffer, writer),
        GET => serve_get(world, request, buffer, reader, writer),
        _ => ask_console(world, request, console, writer),
    }
}
