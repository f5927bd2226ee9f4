//! What the services of a console have in common: bytes that a call hands over, and refused calls. The
//! numbers here are `failed` and `most_handed` of specs/Consoles, and stand in docs/GATES.md.
ghost use Rattle.std.specs.Prelude.{◌≡◌, ◌+◌, ◌^◌, ◌≤◌, ◌++◌, ◌↔◌, IsTrue, IsSome, IsOk, Some, OnOk, OnErr};
ghost use Rattle.std.specs.Bool.{OnTrue};
ghost use Rattle.std.specs.Option.{option_map};
ghost use Rattle.sfi_host.specs.Hosts.{data_of, asked, outside, HasData, SameMemory, data_from, with_a0};
ghost use Rattle.sfi_host.specs.Consoles.{failed, handed};

use crate::gates::GateAnswer;
use crate::guest::Guest;
use rv_mem::Memory;
use std::alloc::AllocError;

/// a0 of a refused call.
pub const FAILED: u32 = u32::MAX;

/// How many bytes one call may hand over.
pub const MOST_HANDED: u32 = 65536;

/// Whether the caller's a1 bytes from a0 on may be handed over: there aren't too many,
/// and all are in its data region.
pub(crate) fn may_hand<M: Memory>(guest: &Guest<'_, M>) -> bool
    requires has_data { HasData M.bytes guest.now }
    ensures handed { IsTrue result ↔ IsSome (handed (asked M.bytes guest.now)) }
    ensures there { OnTrue result (IsSome (data_from (asked M.bytes guest.now)
        (asked M.bytes guest.now).a0 (asked M.bytes guest.now).a1)) }
    ensures end { OnTrue result
        ((asked M.bytes guest.now).a0 + (asked M.bytes guest.now).a1 ≤ 2 ^ 32) }
{
    guest.arg1() <= MOST_HANDED && guest.covers(guest.arg0(), u64::from(guest.arg1()))
}

/// Appends the guest's `count` data bytes from the address `at` on to `output`. An error means that
/// memory ran out, and then `output` is as before. Where `count` is 0 it takes no memory.
pub(crate) fn append<M: Memory>(
    output: &mut Vec<u8>,
    guest: &Guest<'_, M>,
    at: u32,
    count: u32,
) -> Result<(), AllocError>
    requires there { IsSome (data_from (asked M.bytes guest.now) at count) }
    requires end { at + count ≤ 2 ^ 32 }
    ensures ok { OnOk result (Some output.new.items
        ≡ option_map (λ bytes. output.old.items ++ bytes)
        (data_from (asked M.bytes guest.now) at count)) }
    ensures err { OnErr result (output.new.items ≡ output.old.items) }
    ensures none { count ≡ 0 → IsOk result }
{
    output.try_reserve(count as usize)?;
    for k in 0..count {
        output.push(guest.byte(at + k).unwrap())?;
    }
    Ok(())
}

/// Refuses a call: its a0 becomes `FAILED`, nothing else changes, and the caller goes on after it. The
/// result is `Replied` each time, for a service to return.
pub(crate) fn refuse<M: Memory>(guest: &mut Guest<'_, M>) -> GateAnswer
    ensures replied { result ≡ GateAnswer.Replied }
    ensures same_reference { SameMemory guest.old guest.new }
    ensures asked { asked M.bytes guest.new ≡ with_a0 (asked M.bytes guest.old) failed }
    ensures has_data { HasData M.bytes guest.old → HasData M.bytes guest.new }
    ensures outside { outside M.bytes guest.new ≡ outside M.bytes guest.old }
    ensures place { data_of guest.new ≡ data_of guest.old }
{
    guest.set0(FAILED);
    GateAnswer::Replied
}
