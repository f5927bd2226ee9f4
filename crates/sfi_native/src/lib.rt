//! Machine code of x86-64 for the lines of an accepted sandbox. A line is as in the translation of
//! sfi_translate: an instruction, or a mark where a function, an entry or a head is. At a head code
//! tests the steps that the turn has left. The way out is right behind the last byte of a sandbox's
//! code, where the host has put a jump to itself: code goes there, with the sandbox's pc in edx and
//! nothing owed, for a step that the host has to do, a slow step.
//!
//! Each of the sandbox's 32 registers lies in a register of the processor, as a plan says (`specs/Registers.antt`), or has
//! four bytes in a frame, behind which the host's addresses of the code and of a table of entries are (`specs/Table.antt`); r14 has
//! the steps left and those that are done and not counted yet, which code owes, r15 the host's address of the sandbox's address 0;
//! eax, ecx and edx are free between lines. `specs/Code.antt` says which instructions a line becomes, `specs/Layout.antt` when a processor has the
//! state of a turn. Laws say that the bytes of lines then do what these do: `Facts::computing_lines_run`, `branch_lines_run`,
//! `jal_lines_run`, `jalr_lines_run`, `load_lines_run`, `store_lines_run`, `faulting_lines_run`; `lines_stand`,
//! `placed_lines_run`, `placed_steps_run` of all that [`compile`] writes (`specs/Places.antt`). An access beside the data faults:
//! the host then goes out by the table of accesses that [`compile`] makes, too (`specs/Faults.antt`). `native_turns_end` speaks
//! of that code and a host (`specs/Host.antt`), in a whole turn of an accepted sandbox, and of how many instructions it takes at
//! most (`specs/Whole.antt`).
#![tactic(auto)]

mod access;
mod byte_sizes;
mod checksum;
mod compilation;
mod computation;
mod division;
mod entries;
pub mod faults;
mod file;
pub mod frame;
mod head;
pub mod jump;
pub mod layout;
pub mod line;
mod listing;
mod operation;
mod owed;
mod padding;
pub mod plan;
mod register_jump;
mod uses;
mod weights;

pub use access::{push_load_line, push_store_line};
pub use compilation::{CompiledCode, compile};
pub use computation::push_computing_line;
pub use faults::Access;
pub use file::native_file;
pub use frame::frame_of;
pub use head::{push_head_line, push_leave_line};
pub use jump::{Jump, push_branch_line, push_jal_line};
pub use layout::Layout;
pub use line::{Line, push_line};
pub use listing::lines_of;
pub use plan::Plan;
pub use register_jump::push_jalr_line;
pub use uses::plan_of;
