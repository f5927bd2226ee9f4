//! Sandboxes' bytes, copied to another memory, which becomes the world's when sandboxes are added or
//! removed (`world/adding.rt`, `world/removing.rt`).
ghost use Rattle.std.specs.Prelude.{◌≡◌, ◌+◌, ◌^◌, ◌≤◌, IfOk, OnOk, Some};
ghost use Rattle.std.specs.FinMap.{empty};
ghost use Rattle.std.specs.List.{range_with_len, remove};
ghost use Rattle.rv_mem.specs.Bytes.{bytes_at};
ghost use Rattle.sfi_host.specs.Adding.{bytes_of};
ghost use Rattle.sfi_host.specs.Owning.{AreOwned};
ghost use Rattle.sfi_host.specs.Slots.{span_of, bytes_in, IsWhole};
ghost use Rattle.sfi_host.specs.Worlds.{seat_of, seats_of, world_of, IsSafeSeat, IsSafeWorld};
ghost use Rattle.sfi_host.specs.private.Copying.{CopiesRegion, CopiesSeat};

use crate::region::Region;
use crate::sandbox::Sandbox;
use rv_mem::Memory;
use std::alloc::{AllocError, Global};

/// How many bytes of a region are copied at once, at most.
const PIECE: u32 = 65536;

/// A copy of the bytes that `from` has in the region; it has one at each of the region's addresses. An
/// error means that memory ran out.
fn region_bytes<M: Memory>(alloc: Global, region: Region, from: &M) -> Result<Vec<u8>, AllocError>
    requires { IsWhole (span_of region) (bytes_in (span_of region) (M.bytes from.now)) }
    ensures { IfOk result (λ bytes. bytes_at (bytes_in (span_of region) (M.bytes from.now))
        (range_with_len region.base region.size) ≡ Some bytes.items) }
{
    let mut bytes = Vec::with_capacity(alloc, region.size as usize)?;
    bytes.resize(region.size as usize, 0)?;
    if !region.read(from, region.base, &mut bytes) {
        return Err(AllocError);
    }
    Ok(bytes)
}

/// Adds the region to the memory `to`, with the bytes that `from` has there. It takes memory for a copy
/// of all of them at once. An error means that memory ran out, or that `to` has one of the addresses.
fn copy_piece<M: Memory>(
    alloc: Global,
    region: Region,
    from: &M,
    to: &mut M,
) -> Result<(), AllocError>
    requires whole { IsWhole (span_of region) (bytes_in (span_of region) (M.bytes from.now)) }
    requires end { region.base + region.size ≤ 2 ^ 32 }
    ensures { OnOk result
        (CopiesRegion (span_of region) (M.bytes from.now) (M.bytes to.old) (M.bytes to.new)) }
{
    let bytes = region_bytes(alloc, region, from)?;
    match to.add(region.base, region.size, &bytes) {
        Ok(()) => Ok(()),
        Err(_) => Err(AllocError),
    }
}

/// Adds the region to the memory `to`, with the bytes that `from` has there, by pieces of at most
/// `PIECE` bytes: so little memory is taken beside the two. After an error `to` may have some of them.
fn copy_region<M: Memory>(
    alloc: Global,
    region: Region,
    from: &M,
    to: &mut M,
) -> Result<(), AllocError>
    requires whole { IsWhole (span_of region) (bytes_in (span_of region) (M.bytes from.now)) }
    requires end { region.base + region.size ≤ 2 ^ 32 }
    ensures { OnOk result
        (CopiesRegion (span_of region) (M.bytes from.now) (M.bytes to.old) (M.bytes to.new)) }
{
    let mut done = 0;
    while done < region.size {
        let piece = Region {
            base: region.base + done,
            size: PIECE.min(region.size - done),
        };
        copy_piece(alloc, piece, from, to)?;
        done += piece.size;
    }
    Ok(())
}

/// Adds the sandbox's code and data regions to the memory `to`, with the bytes that `from` has there.
/// After an error `to` may have some of them.
fn copy_sandbox<M: Memory>(
    alloc: Global,
    sandbox: &Sandbox,
    from: &M,
    to: &mut M,
) -> Result<(), AllocError>
    requires { IsSafeSeat (M.bytes from.now) (seat_of sandbox.now) }
    ensures { OnOk result (CopiesSeat (seat_of sandbox.now) (M.bytes from.now) (M.bytes to.old)
        (M.bytes to.new)) }
{
    copy_region(alloc, sandbox.code, from, to)?;
    copy_region(alloc, sandbox.data, from, to)
}

/// Copies the code and data of all sandboxes of a world but that of number `but` to an empty memory,
/// which has these bytes and no others then; of all where there is no sandbox of that number. After an
/// error `to` may have some of them.
pub(crate) fn copy_other_sandboxes<M: Memory>(
    alloc: Global,
    sandboxes: &[Sandbox],
    but: usize,
    from: &M,
    to: &mut M,
) -> Result<(), AllocError>
    requires safe { IsSafeWorld (world_of (M.bytes from.now) sandboxes.now) }
    requires empty { M.bytes to.old ≡ empty }
    ensures { OnOk result (M.bytes to.new
        ≡ bytes_of (remove (seats_of sandboxes.now) but) (M.bytes from.now)) }
{
    for place in 0..sandboxes.len() {
        if place == but {
            continue;
        }
        copy_sandbox(alloc, &sandboxes[place], from, to)?;
    }
    Ok(())
}

/// Copies the code and data of all sandboxes of a world to an empty memory, which has the world's bytes
/// then.
pub(crate) fn copy_all_sandboxes<M: Memory>(
    alloc: Global,
    sandboxes: &[Sandbox],
    from: &M,
    to: &mut M,
) -> Result<(), AllocError>
    requires safe { IsSafeWorld (world_of (M.bytes from.now) sandboxes.now) }
    requires owned { AreOwned (world_of (M.bytes from.now) sandboxes.now) }
    requires empty { M.bytes to.old ≡ empty }
    ensures { OnOk result (M.bytes to.new ≡ M.bytes from.now) }
{
    copy_other_sandboxes(alloc, sandboxes, sandboxes.len(), from, to)?;
    Ok(())
}
