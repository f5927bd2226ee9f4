//! The command line: the job that its words ask for.
//!
//! A new command is a file in `commands`, a row of `COMMANDS` and a case of `job_named` there, a
//! variant of [`Job`], and in specs/Command its shape in `sfi` and its job in `name_of` and
//! `HasOptions`.
#![tactic(auto)]

mod command_line;
mod commands;
mod escaped;
mod job;
mod options;
mod places;
mod rows;

pub use command_line::job_of;
pub use commands::VERSION;
pub use job::{HEX_LINE, Job, JobFault, RunOptions};
