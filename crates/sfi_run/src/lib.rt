//! Worlds for C, and for what calls as C does: a static library, which `include/sfi_run.h` declares.
//!
//! A world is in memory of the caller's, which begins as zeros. A call takes it out, does what
//! `sfi_host` does, and puts it back. The contracts hold for a caller that keeps what the header asks:
//! nothing checks it. The private function before a call does its work on a world that is there, so
//! that it has a contract of its own. A change of a call's parameters, numbers or structs has to go
//! into the header, and into the bindings (`bindings/` of the repository), which go by that.
#![tactic(auto)]

mod between;
mod box_parts;
mod callbacks;
mod changes;
mod consoles;
mod held_console;
mod held_module;
mod held_world;
mod holding;
mod modules;
mod names;
mod resets;
mod snapshots;
mod turns;
mod version;
mod worlds;

pub use between::{
    sfi_run_data, sfi_run_enter, sfi_run_read, sfi_run_registers, sfi_run_set_registers,
    sfi_run_steps, sfi_run_stop, sfi_run_write,
};
pub use callbacks::sfi_run_call_back;
pub use changes::{sfi_run_add, sfi_run_remove};
pub use consoles::{
    SfiRunConsole, sfi_run_console_free, sfi_run_console_new, sfi_run_console_read,
    sfi_run_console_turn, sfi_run_console_written,
};
pub use held_console::HeldConsole;
pub use held_module::HeldModule;
pub use held_world::HeldWorld;
pub use holding::SfiRunWorld;
pub use modules::{SfiRunModule, sfi_run_instance, sfi_run_module_free, sfi_run_module_new};
pub use names::{
    sfi_run_api, sfi_run_export, sfi_run_export_at, sfi_run_import, sfi_run_import_at,
};
pub use resets::sfi_run_reset;
pub use snapshots::{SfiRunEvent, SfiRunRegion, SfiRunRegisters};
pub use turns::{
    sfi_run_call, sfi_run_event, sfi_run_exit, sfi_run_reply, sfi_run_turn, sfi_run_until,
};
pub use version::sfi_run_version;
pub use worlds::{LoadFault, sfi_run_count, sfi_run_free, sfi_run_load};
