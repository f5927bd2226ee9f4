//! What the words of a command line ask for.

ghost use Rattle.std.specs.Prelude.{◌≡◌, ◌≢◌};
ghost use Rattle.sfi_command.specs.Command.{is_raw, number_of};
ghost use Rattle.sfi_command.specs.declared.job.JobFault.TheVariants.{Memory};

use sfi_formats::Place;
use std::alloc::{AllocError, Global};
use thiserror::Error;

/// The options of a run.
#[derive(Drop)]
pub struct RunOptions {
    /// How often each sandbox gets a turn, from 1 to 10000.
    pub rounds: u32,
    /// How many steps a turn has, from 1 to 1000000.
    pub quantum: u32,
    /// What each sandbox reads.
    pub input: Vec<u8>,
    /// Whether the pc and the registers are printed of each sandbox that may go on or trapped.
    pub report: bool,
}

/// A command with its options as values. An image that is read is its bytes or hexadecimal text.
#[derive(Drop)]
pub enum Job {
    /// Is the image accepted?
    Check {
        /// Whether what is read is the image's bytes, however it begins. There is no report then.
        raw: bool,
        /// Whether each finding is printed before the verdict.
        report: bool,
    },
    /// The listing of the image.
    Dis,
    /// The image that a source text makes.
    Build {
        /// Whether its bytes are written as they are, and not as hexadecimal text.
        raw: bool,
        /// Where the sandboxes lie, in their order. Those that it doesn't reach lie at their usual
        /// places.
        places: Vec<Place>,
    },
    /// The addresses of a source text's names in the image that it makes.
    Map {
        /// Where the sandboxes lie, as for a build.
        places: Vec<Place>,
    },
    /// A run of the image's sandboxes.
    Run(RunOptions),
    /// A run of the sandboxes of an image in a file, one after another, whose services put and get
    /// write and read the process's standard output and input.
    Exec {
        /// The file's path.
        image: String,
        /// How many steps each sandbox may do, at least 1; 18446744073709551615 where no number is
        /// given.
        budget: u64,
    },
    /// The image in the second format.
    Convert {
        /// Whether its bytes are written as they are, and not as hexadecimal text.
        raw: bool,
    },
    /// The image with a sandbox at another place.
    Move {
        /// Whether its bytes are written as they are, and not as hexadecimal text.
        raw: bool,
        /// The sandbox's number, counted from 0.
        sandbox: u32,
        /// Where it is to lie.
        place: Place,
    },
    /// The image as C.
    Translate {
        /// Whether it is a whole program, with the header and the console of `run` in it.
        whole: bool,
    },
    /// The image as machine code.
    Native,
}

impl Job {
    /// Whether what the job reads is an image's bytes, however it begins: a `check --raw`. The
    /// `--raw` of other jobs is about what they write.
    pub fn is_raw(&self) -> bool
        ensures { result ≡ is_raw self.now }
    {
        match self {
            Job::Check { raw, .. } => *raw,
            _ => false,
        }
    }
}

/// The line that is printed where the text of `--input` spells no bytes.
pub const HEX_LINE: &str = "option fault hex\n";

/// Why the words ask for no job.
#[derive(Debug, Drop, Error)]
pub enum JobFault {
    /// The words don't parse, have an `--at` that is no place, or ask for both `--raw` and
    /// `--report`, for help or for the version: the text to print.
    #[error("{0}")]
    Usage(String),
    /// The words parse, and the text of `--input` spells no bytes.
    #[error("option fault hex")]
    Hex,
    /// An allocation was refused.
    #[error("out of memory")]
    Memory,
}

impl JobFault {
    /// The number of the fault, from 1 to 3. `number_of` of specs/Command has the same.
    pub fn number(&self) -> u32
        ensures { result ≡ number_of self.now }
    {
        match self {
            JobFault::Usage(_) => 1,
            JobFault::Hex => 2,
            JobFault::Memory => 3,
        }
    }
}

impl From<AllocError> for JobFault {
    ghost from_gives = { λ _ e. e ≡ Memory };

    fn from(_e: AllocError) -> JobFault {
        JobFault::Memory
    }
}

/// The fault of words that parse and still ask for no job, a `Usage` with the text to print;
/// `Memory` where the text can't be copied.
pub(crate) fn usage_fault(alloc: Global, text: &str) -> JobFault
    ensures { number_of result ≢ 2 }
{
    match String::from_str(alloc, text) {
        Ok(text) => JobFault::Usage(text),
        Err(_) => JobFault::Memory,
    }
}

/// The fault where no job comes of words that parse: there is no such subcommand, or an option or
/// word is missing or out of its range. By the rows of `COMMANDS` clap refuses all of these before,
/// with a text of its own, so this text is never printed.
pub(crate) fn no_job_fault(alloc: Global) -> JobFault
    ensures { number_of result ≢ 2 }
{
    usage_fault(alloc, "error: no such command\n")
}
