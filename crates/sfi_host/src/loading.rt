//! From the parts of a module to sandboxes in a memory.
ghost use Rattle.std.specs.Prelude.{◌≡◌, IfOk, OnOk, map};
ghost use Rattle.sfi_image.specs.Parts.{IsRightPart, IsRightLayout};
ghost use Rattle.sfi_host.specs.Modules.{part_of, parts_of};
ghost use Rattle.sfi_host.specs.Loading.{first_seat, with_part, with_parts};
ghost use Rattle.sfi_host.specs.Worlds.{seat_of, seats_of};

use crate::modules::ModulePart;
use crate::region::Region;
use crate::sandbox::{Sandbox, fresh_cpu};
use crate::status::Status;
use rv_mem::Memory;
use sfi_formats::Format;
use std::alloc::{AllocError, Global};
use std::sync::ArcSlice;

/// Adds the part's code to the memory, and its data region: the first data bytes of the image, and
/// zeros after them. All regions of an image lie apart and end within the addresses, so an error means
/// that memory ran out.
fn add_part<M: Memory>(memory: &mut M, part: &ModulePart) -> Result<(), AllocError>
    requires { (format : Format) × IsRightPart (part_of format part.now) }
    ensures { (format : Format)
        → OnOk result (M.bytes memory.new ≡ with_part (M.bytes memory.old) (part_of format part.now)) }
{
    if memory
        .add(part.code_base, part.code.len() as u32, &part.code)
        .is_err()
    {
        return Err(AllocError);
    }
    if memory
        .add(part.data_base, part.data_size, &part.init)
        .is_err()
    {
        return Err(AllocError);
    }
    Ok(())
}

/// The sandbox of a part before any turn: ready at its start, with no step done. Its bytes are no part
/// of it: `add_part` adds them to a memory.
fn first_sandbox(alloc: Global, format: Format, part: &ModulePart) -> Result<Sandbox, AllocError>
    requires { IsRightPart (part_of format part.now) }
    ensures { IfOk result (λ s. seat_of s ≡ first_seat (part_of format part.now)) }
{
    let mut gates = Vec::with_capacity(alloc, part.gates.len())?;
    gates.extend_from_slice(&part.gates)?;
    let init = ArcSlice::clone(&part.init)?;
    let code = Region {
        base: part.code_base,
        size: part.code.len() as u32,
    };
    let data = Region {
        base: part.data_base,
        size: part.data_size,
    };
    Ok(Sandbox {
        format,
        code,
        data,
        gates,
        start: part.start,
        init,
        cpu: fresh_cpu(format, code, data, part.start),
        status: Status::Ready,
        steps: 0,
    })
}

/// The sandboxes of a module's parts, in order, with their code and data added to the memory. After an
/// error, which means that memory ran out, that may have some of them.
pub(crate) fn load_parts<M: Memory>(
    alloc: Global,
    format: Format,
    parts: &[ModulePart],
    memory: &mut M,
) -> Result<Vec<Sandbox>, AllocError>
    requires { IsRightLayout (parts_of format parts.now) }
    ensures seats { IfOk result
        (λ all. seats_of all.items ≡ map first_seat (parts_of format parts.now)) }
    ensures bytes { OnOk result
        (M.bytes memory.new ≡ with_parts (M.bytes memory.old) (parts_of format parts.now)) }
{
    let mut sandboxes = Vec::with_capacity(alloc, parts.len())?;
    for part in parts {
        add_part(memory, part)?;
        sandboxes.push(first_sandbox(alloc, format, part)?)?;
    }
    Ok(sandboxes)
}
