//! What a device keeps of plug-ins that come and go: which version of each runs, what may be
//! written over, and what may be entered. A static library for C, whose calls change nothing but
//! the slots that the caller passes.
//!
//! A slot is for one plug-in, and has two versions of it: the current one, which runs, and another,
//! older or newer. An update is received in the place of that other one. If it is accepted, it
//! becomes current, on trial: for some turns of the host it has to report that it works, or the
//! older one is current again. The structs, the states' numbers and the calls are also in
//! include/sfi_slots.h; what each call makes of a slot is defined in specs/Slots. In C the slice
//! `slots` is two arguments, a pointer and a count.
#![tactic(auto)]

mod bounds;
mod calls;
mod changes;
mod slot;

pub use bounds::SfiBounds;
pub use calls::{
    sfi_slots_accept, sfi_slots_begin, sfi_slots_clear, sfi_slots_confirm, sfi_slots_may_enter,
    sfi_slots_place, sfi_slots_refuse, sfi_slots_remove, sfi_slots_roll_back, sfi_slots_try,
    sfi_slots_turn, sfi_slots_write,
};
pub use slot::{ACCEPTED, EMPTY, GOOD, ON_TRIAL, RECEIVING, SfiSlot, SfiVersion};
