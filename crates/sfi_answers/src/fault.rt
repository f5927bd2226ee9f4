//! Faults of the input. Their lines are in `fault_lines`.

ghost use Rattle.std.specs.Prelude.{◌≡◌, ◌≢◌, IfOk};
ghost use Rattle.sfi_answers.specs.Answers.{StopsBuild, stop_of};
ghost use Rattle.sfi_answers.specs.FaultTexts.{stop_text};
ghost use Rattle.sfi_answers.specs.declared.fault.Stop.TheVariants.{Memory};

use crate::fault_lines::stop_line;
use crate::verdict::Answer;
use sfi_build::BuildFault;
use sfi_image::LayoutFault;
use sfi_io::{HexFault, HexStop};
use sfi_link::LinkFault;
use sfi_rewrite::RewriteFault;
use sfi_text::{TextCause, TextFault};
use std::alloc::{AllocError, Global};

/// The line that names a text above its limit.
pub const TOO_LARGE_LINE: &str = "input fault too large\n";

/// What is wrong with the text that was read.
#[derive(Clone, Copy)]
pub enum InputFault {
    Hex(HexFault),
    Utf8,
    /// It passes the limit.
    TooLarge,
    /// It begins as an image of the second format does, which `convert` makes.
    NotOld,
    /// It is an accepted image of code in words, which has no other format.
    Words,
    /// It is an accepted image, which has no sandbox of the number that `move` is given.
    NoSandbox,
    /// It is an accepted image, in which the sandbox can't lie at the place that `move` is given.
    NoPlace,
    /// The image is to be in a file, and files can't be opened here.
    NoFile,
}

/// Why a command gives no verdict: a fault of the text, of the image that it spells or of the
/// source that it means, or an allocation was refused.
#[derive(Clone, Copy)]
pub enum Stop {
    Input(InputFault),
    Layout(LayoutFault),
    Build(BuildFault),
    Memory,
}

impl From<AllocError> for Stop {
    ghost from_gives = { λ _ e. e ≡ Memory };

    fn from(_e: AllocError) -> Stop {
        Stop::Memory
    }
}

impl From<HexStop> for Stop {
    ghost from_gives = { λ stop given. given ≡ stop_of stop };

    fn from(stop: HexStop) -> Stop {
        match stop {
            HexStop::Fault(fault) => Stop::Input(InputFault::Hex(fault)),
            HexStop::Memory => Stop::Memory,
        }
    }
}

/// Why a build stops: want of memory is no fault of the text.
impl From<BuildFault> for Stop {
    ghost from_gives = { StopsBuild };

    fn from(fault: BuildFault) -> Stop {
        match fault {
            BuildFault::Text(
                TextFault {
                    cause: TextCause::Memory,
                    ..
                },
            )
            | BuildFault::Rewrite(RewriteFault::Memory)
            | BuildFault::Link(LinkFault::Memory) => Stop::Memory,
            BuildFault::Text(_)
            | BuildFault::Rewrite(_)
            | BuildFault::Link(_)
            | BuildFault::Names(_) => Stop::Build(fault),
        }
    }
}

/// What is answered where a command gives no verdict: status 2, and the line that names the fault.
/// Want of memory has no line; it is `Err`, as is memory that runs out here.
pub fn stop_answer(alloc: Global, stop: Stop) -> Result<Answer, AllocError>
    ensures status { IfOk result (λ a. a.status ≡ 2) }
    ensures memory { IfOk result (λ a. stop ≢ Memory) }
    ensures text { IfOk result (λ a. a.output.items ≡ stop_text stop) }
{
    Ok(Answer::lines(2, stop_line(alloc, stop)?))
}
