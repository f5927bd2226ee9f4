//! A slot and its two versions. A version is kept if its image was accepted and it wasn't dropped:
//! it may run, now or later.
ghost use Rattle.std.specs.Prelude.{◌≡◌, ◌≢◌, ◌<◌, ◌↔◌, IsTrue, slice_get, Some};
ghost use Rattle.sfi_slots.specs.declared.slot.SfiSlot.{SfiSlot};
ghost use Rattle.sfi_slots.specs.Slots.{IsApartFrom, IsApartFromSlot, IsApartFromOthers, MayEnter, new_version, unit_of};

use crate::bounds::{SfiBounds, lie_apart};
use sfi_formats::{BUNDLE_SIZE, Format};

/// The state of a version that isn't there. It goes through the states in the order of their
/// numbers, which `enum sfi_slot_state` of include/sfi_slots.h and specs/Slots have, too; from
/// `ACCEPTED` on it is kept.
pub const EMPTY: u32 = 0;
/// Its image's bytes are coming: nothing is known of them.
pub const RECEIVING: u32 = 1;
/// Its image was accepted, and it never ran.
pub const ACCEPTED: u32 = 2;
/// It runs, and has to report that it works.
pub const ON_TRIAL: u32 = 3;
/// It runs, and has reported that it works.
pub const GOOD: u32 = 4;

/// A version of a plug-in: `struct sfi_version` of include/sfi_slots.h. What its state doesn't
/// speak of is 0, but for `memory`.
#[repr(C)]
#[derive(Clone, Copy, PartialEq, Eq, Debug)]
pub struct SfiVersion {
    /// One of the five above.
    pub state: u32,
    /// Which of the slot's accepted updates it is, counted from 1.
    pub number: u32,
    /// On trial: in how many more turns of the host it has to report.
    pub turns: u32,
    /// Which of the slot's two memories for images holds its image: 0 or 1.
    pub memory: u32,
    /// Where its sandbox lies, as it was accepted.
    pub bounds: SfiBounds,
}

/// A plug-in's slot: `struct sfi_slot` of include/sfi_slots.h.
#[repr(C)]
#[derive(Clone, Copy, PartialEq, Eq, Debug)]
pub struct SfiSlot {
    /// The version that runs, or none: in state `ON_TRIAL`, `GOOD` or `EMPTY`.
    pub current: SfiVersion,
    /// The older version, kept to go back to; an update, received or accepted; or none.
    pub other: SfiVersion,
    /// How many updates were accepted.
    pub updates: u32,
    /// How many bytes of the current version's code were written to their place, from its front on.
    pub written: u32,
}

/// A version of which nothing was accepted: in state `EMPTY` or `RECEIVING`, with its image in
/// `memory`.
pub(crate) fn new_version(state: u32, memory: u32) -> SfiVersion
    ensures { result ≡ new_version state memory }
{
    let bounds = SfiBounds {
        format: 0,
        code_base: 0,
        code_size: 0,
        data_base: 0,
        data_size: 0,
    };
    SfiVersion {
        state,
        number: 0,
        turns: 0,
        memory,
        bounds,
    }
}

/// Whether the bounds lie apart from those of the version; true if it isn't kept.
fn is_apart_from(bounds: &SfiBounds, version: &SfiVersion) -> bool
    ensures { IsTrue result ↔ IsApartFrom bounds.now version.now }
{
    if version.state < ACCEPTED {
        return true;
    }
    lie_apart(bounds, &version.bounds)
}

/// Whether the bounds lie apart from those of both versions of a slot, as far as they are kept.
fn is_apart_from_slot(bounds: &SfiBounds, slot: &SfiSlot) -> bool
    ensures { IsTrue result ↔ IsApartFromSlot bounds.now slot.now }
{
    if !is_apart_from(bounds, &slot.current) {
        return false;
    }
    is_apart_from(bounds, &slot.other)
}

/// A copy of slot `number`, counted from 0; `None` if there are not so many.
pub(crate) fn slot_at(slots: &[SfiSlot], number: usize) -> Option<SfiSlot>
    ensures { result ≡ slice_get slots.now number }
{
    slots.get(number).copied()
}

/// Whether the bounds lie apart from what slot `i` keeps; true if `i` is `number`, or there is no
/// such slot.
fn is_apart_at(bounds: &SfiBounds, slots: &[SfiSlot], i: usize, number: u32) -> bool
    ensures { IsTrue result ↔ ((s : SfiSlot) → slice_get slots.now i ≡ Some s → i ≢ number
        → IsApartFromSlot bounds.now s) }
{
    if i == number as usize {
        return true;
    }
    match slot_at(slots, i) {
        Some(slot) => is_apart_from_slot(bounds, &slot),
        None => true,
    }
}

/// Whether the bounds lie apart from what each slot but `number` keeps: an update of slot `number`
/// may lie where its older version does.
pub(crate) fn is_apart_from_others(bounds: &SfiBounds, slots: &[SfiSlot], number: u32) -> bool
    ensures { IsTrue result ↔ IsApartFromOthers bounds.now slots.now number }
{
    for i in 0..slots.len() {
        if !is_apart_at(bounds, slots, i, number) {
            return false;
        }
    }
    true
}

/// Whether the current version of the slot may be entered at the absolute address `pc`: it is on
/// trial or good, all of its code is written, and a bundle of it begins there, or in code in words
/// a word.
pub(crate) fn may_enter(slot: &SfiSlot, pc: u32) -> bool
    ensures { IsTrue result ↔ MayEnter slot.now pc }
{
    let bounds = &slot.current.bounds;
    if slot.current.state < ON_TRIAL {
        return false;
    }
    if slot.written != bounds.code_size {
        return false;
    }
    if pc < bounds.code_base {
        return false;
    }
    let offset = pc - bounds.code_base;
    if offset >= bounds.code_size {
        return false;
    }
    offset % unit_of(bounds.format) == 0
}

/// How many bytes lie between the places where a sandbox of the format of that number may be
/// entered: 4 in code in words, formats 3 and 4, else 16. At multiples of 16 each format may be
/// entered, so other numbers get 16.
fn unit_of(number: u32) -> u32
    ensures is { result ≡ unit_of number }
    ensures positive { 0 < result }
{
    if number == 3 || number == 4 {
        Format::numbered(number).unit()
    } else {
        BUNDLE_SIZE
    }
}
