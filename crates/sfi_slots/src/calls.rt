//! The calls of C. Each changes at most the slot `number`, counted from 0, and returns whether it
//! did: false where the call isn't due, since the slot isn't in a state for it, or there is no such
//! slot, and then nothing changes. What each makes of its slot is in changes.rt.
ghost use Rattle.std.specs.Prelude.{◌≡◌, ◌<◌, ◌↔◌, IsTrue, Bool, Some, Option, length, replicate, slice_get, is_some};
ghost use Rattle.sfi_slots.specs.declared.slot.SfiSlot.{SfiSlot};
ghost use Rattle.sfi_slots.specs.Slots.{MayEnter, IsApartFromOthers, empty_slot, begun, accepted, refused, tried, placing, grown, turned, confirmed, rolled_back, removed, next_of, with_next, slots_after};

use crate::bounds::SfiBounds;
use crate::changes;
use crate::slot::{EMPTY, SfiSlot, is_apart_from_others, may_enter, new_version, slot_at};

/// Writes `next`, if there is one, over slot `number`. Returns whether there was.
fn put(slots: &mut [SfiSlot], number: u32, next: Option<SfiSlot>) -> bool
    requires { number < length slots.now }
    ensures slots { slots.new ≡ with_next slots.old number next }
    ensures done { result ≡ is_some next }
{
    match next {
        Some(slot) => {
            slots[number as usize] = slot;
            true
        }
        None => false,
    }
}

/// Empties all slots, whatever they hold: the first call.
#[unsafe(no_mangle)]
pub extern "C" fn sfi_slots_clear(slots: &mut [SfiSlot])
    ensures { slots.new ≡ replicate (length slots.old) empty_slot }
{
    let nothing = SfiSlot {
        current: new_version(EMPTY, 0),
        other: new_version(EMPTY, 1),
        updates: 0,
        written: 0,
    };
    slots.fill(nothing);
}

/// Begins an update: drops the version that isn't current, into whose memory the image's bytes then
/// come. Not while the current one is on trial, since the other is then the one to go back to.
#[unsafe(no_mangle)]
pub extern "C" fn sfi_slots_begin(slots: &mut [SfiSlot], number: u32) -> bool
    ensures slots { slots.new ≡ slots_after begun slots.old number }
    ensures done { result ≡ is_some (next_of begun (slice_get slots.old number)) }
{
    match slot_at(slots, number as usize) {
        Some(slot) => put(slots, number, changes::begun(slot)),
        None => false,
    }
}

/// The checker accepted the bytes that came, as a sandbox with these bounds: the version is
/// accepted, too. Not where the bounds don't lie apart (as `lie_apart` says) from those of each
/// version that another slot keeps, or nothing was being received.
#[unsafe(no_mangle)]
pub extern "C" fn sfi_slots_accept(slots: &mut [SfiSlot], number: u32, bounds: &SfiBounds) -> bool
    ensures { (fits : Bool) × (IsTrue fits ↔ IsApartFromOthers bounds.now slots.old number)
        × (slots.new ≡ slots_after (accepted fits bounds.now) slots.old number)
        × (result ≡ is_some (next_of (accepted fits bounds.now) (slice_get slots.old number))) }
{
    let fits = is_apart_from_others(bounds, slots, number);
    match slot_at(slots, number as usize) {
        Some(slot) => put(slots, number, changes::accepted(fits, *bounds, slot)),
        None => false,
    }
}

/// The checker refused the bytes that came: their version is dropped. Not where nothing was being
/// received.
#[unsafe(no_mangle)]
pub extern "C" fn sfi_slots_refuse(slots: &mut [SfiSlot], number: u32) -> bool
    ensures slots { slots.new ≡ slots_after refused slots.old number }
    ensures done { result ≡ is_some (next_of refused (slice_get slots.old number)) }
{
    match slot_at(slots, number as usize) {
        Some(slot) => put(slots, number, changes::refused(slot)),
        None => false,
    }
}

/// Makes the accepted update the current version, on trial for `turns` turns; the older one is
/// kept. Nothing of its code is written yet. Not while the current version is on trial.
#[unsafe(no_mangle)]
pub extern "C" fn sfi_slots_try(slots: &mut [SfiSlot], number: u32, turns: u32) -> bool
    ensures slots { slots.new ≡ slots_after (tried turns) slots.old number }
    ensures done { result ≡ is_some (next_of (tried turns) (slice_get slots.old number)) }
{
    match slot_at(slots, number as usize) {
        Some(slot) => put(slots, number, changes::tried(turns, slot)),
        None => false,
    }
}

/// Called before the current version's code is written to its place, from its front on, also again:
/// none of it counts as written then.
#[unsafe(no_mangle)]
pub extern "C" fn sfi_slots_place(slots: &mut [SfiSlot], number: u32) -> bool
    ensures slots { slots.new ≡ slots_after placing slots.old number }
    ensures done { result ≡ is_some (next_of placing (slice_get slots.old number)) }
{
    match slot_at(slots, number as usize) {
        Some(slot) => put(slots, number, changes::placing(slot)),
        None => false,
    }
}

/// Called before the next `count` bytes of the current version's code are written, which count as
/// written then. Not where that is more than its code has.
#[unsafe(no_mangle)]
pub extern "C" fn sfi_slots_write(slots: &mut [SfiSlot], number: u32, count: u32) -> bool
    ensures slots { slots.new ≡ slots_after (grown count) slots.old number }
    ensures done { result ≡ is_some (next_of (grown count) (slice_get slots.old number)) }
{
    match slot_at(slots, number as usize) {
        Some(slot) => put(slots, number, changes::grown(count, slot)),
        None => false,
    }
}

/// A turn of a trial is over, and the version hasn't reported. False where that was the last one,
/// so that the caller has to roll back, or where the version isn't on trial.
#[unsafe(no_mangle)]
pub extern "C" fn sfi_slots_turn(slots: &mut [SfiSlot], number: u32) -> bool
    ensures slots { slots.new ≡ slots_after turned slots.old number }
    ensures done { result ≡ is_some (next_of turned (slice_get slots.old number)) }
{
    match slot_at(slots, number as usize) {
        Some(slot) => put(slots, number, changes::turned(slot)),
        None => false,
    }
}

/// The version on trial has reported that it works: it is good from now on.
#[unsafe(no_mangle)]
pub extern "C" fn sfi_slots_confirm(slots: &mut [SfiSlot], number: u32) -> bool
    ensures slots { slots.new ≡ slots_after confirmed slots.old number }
    ensures done { result ≡ is_some (next_of confirmed (slice_get slots.old number)) }
{
    match slot_at(slots, number as usize) {
        Some(slot) => put(slots, number, changes::confirmed(slot)),
        None => false,
    }
}

/// Drops the version on trial: the older one, if there is one, is current again, and its code has
/// to be written again.
#[unsafe(no_mangle)]
pub extern "C" fn sfi_slots_roll_back(slots: &mut [SfiSlot], number: u32) -> bool
    ensures slots { slots.new ≡ slots_after rolled_back slots.old number }
    ensures done { result ≡ is_some (next_of rolled_back (slice_get slots.old number)) }
{
    match slot_at(slots, number as usize) {
        Some(slot) => put(slots, number, changes::rolled_back(slot)),
        None => false,
    }
}

/// Drops both versions. Not unless the current one is good.
#[unsafe(no_mangle)]
pub extern "C" fn sfi_slots_remove(slots: &mut [SfiSlot], number: u32) -> bool
    ensures slots { slots.new ≡ slots_after removed slots.old number }
    ensures done { result ≡ is_some (next_of removed (slice_get slots.old number)) }
{
    match slot_at(slots, number as usize) {
        Some(slot) => put(slots, number, changes::removed(slot)),
        None => false,
    }
}

/// Whether the slot's current version may be entered at the absolute address `pc`: it is on trial
/// or good, all of its code is written, and a bundle or, in the third and fourth format, a word of
/// it begins there. False if there is no such slot.
#[unsafe(no_mangle)]
pub extern "C" fn sfi_slots_may_enter(slots: &[SfiSlot], number: u32, pc: u32) -> bool
    ensures { IsTrue result ↔ (s : SfiSlot) × (slice_get slots.now number ≡ Some s) × MayEnter s pc }
{
    match slot_at(slots, number as usize) {
        Some(slot) => may_enter(&slot, pc),
        None => false,
    }
}
