//! The commands of the program `sfi`, over any reader and writer.
#![tactic(auto)]

mod answering;
mod executing;
mod execution;
mod piece;
mod run_lines;
mod running;
mod serving;
mod states;
mod stopping;
mod tool;

pub use answering::answer_job;
pub use execution::{Ended, ExecFault, exec, read_image};
pub use serving::Interruption;
pub use sfi_answers::Answer;
pub use sfi_command::{Job, JobFault, VERSION, job_of};
pub use sfi_io::{Input, write_out};
pub use tool::run_tool;
