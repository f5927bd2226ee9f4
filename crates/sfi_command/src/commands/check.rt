//! The command `check`.

ghost use Rattle.std.specs.Prelude.{codes};
ghost use Rattle.sfi_command.specs.private.{IsAsked};

use crate::job::{Job, JobFault, usage_fault};
use crate::options::is_given;
use crate::rows::{CommandRow, OptionRow, Takes};
use clap::ArgMatches;
use std::alloc::Global;

pub(super) const CHECK: CommandRow = CommandRow {
    name: "check",
    about: "Accept an image, or refuse it for the rules that its code breaks",
    options: &[
        OptionRow {
            name: "raw",
            takes: Takes::Nothing,
            about: "Read an image's own bytes, of any number and however they begin, piece by piece",
        },
        OptionRow {
            name: "report",
            takes: Takes::Nothing,
            about: "Before the verdict print a line for each finding; not with --raw",
        },
    ],
    notes: "\
Reads an image, and prints one of
  accepted sandboxes=C bundles=B
  refused findings=N first=Vk sandbox=S at=AAAAAAAA
  layout fault K Name, or another line that names a fault of the input

With --raw, what doesn't begin with a magic gets `layout fault 1 Magic`, digits
too; without it, it is read as digits.

Exit status:
  0  accepted: C sandboxes with B bundles of code, and no finding
  1  refused: N findings, the first in sandbox S at address AAAAAAAA, where
     rule Vk is broken
  2  the input is no image
  3, 4, 5  as `sfi help` says

Example:
  sfi check --report < hi.hex
  sfi build --raw < examples/hi.s | sfi check --raw",
};

const RAW_REPORT: &str = "\
error: '--raw' and '--report' cannot be used together

For more information, try '--help'.
";

/// The check that these options ask for; a `Usage` where they are both `--raw` and `--report`: a
/// report wants the whole image, which a check with `--raw` doesn't keep.
pub(super) fn asked_check(alloc: Global, found: &ArgMatches<'_>) -> Result<Job, JobFault>
    ensures { IsAsked (codes "check") found.now result }
{
    let raw = is_given(found, "raw");
    let report = is_given(found, "report");
    if raw && report {
        return Err(usage_fault(alloc, RAW_REPORT));
    }
    Ok(Job::Check { raw, report })
}
