//! The scan of a sandbox's part of an image.
ghost use Rattle.std.specs.Prelude.{◌≡◌, IfOk};
ghost use Rattle.sfi_formats.specs.declared.format.Format.TheVariants.{Sfi1};
ghost use Rattle.sfi_image.specs.Spelling.{view};
ghost use Rattle.sfi_image.specs.Parts.{IsRightPart};
ghost use Rattle.sfi_rules.specs.Findings.{AreFindings};

use crate::code::{IN_BLOCKS, scan_stretch};
use crate::list::FindingList;
use sfi_formats::Format;
use sfi_image::SandboxPart;
use sfi_rules::{BundlePlace, Finding, Owed};
use std::alloc::{AllocError, Global};

/// The findings in the code of one sandbox, in the order of their addresses. `part` is what an
/// image of this format has of it, and `sandbox` its number in that image, which findings bear. An
/// error means that memory ran out.
pub fn scan_part_as(
    alloc: Global,
    format: Format,
    sandbox: u32,
    part: &SandboxPart,
) -> Result<Vec<Finding>, AllocError>
    requires { IsRightPart (view format part.now) }
    ensures { IfOk result (λ found. AreFindings sandbox (view format part.now) found.items) }
{
    let mut found = FindingList::new(alloc);
    let mut place = BundlePlace {
        sandbox,
        address: part.code_base,
        format,
        code_base: part.code_base,
        code_size: part.code.len() as u32,
        listed: false,
    };
    // A stretch ends where a gate's bundle begins, with which the next one begins.
    let mut owed = Owed::Nothing;
    let mut at = 0;
    for gate in part.gates.iter() {
        let end = (gate.address - part.code_base) as usize;
        owed = scan_stretch::<FindingList, IN_BLOCKS>(
            &place,
            &part.code[at..end],
            owed,
            &mut found,
        );
        place.address = gate.address;
        place.listed = true;
        at = end;
    }
    scan_stretch::<FindingList, IN_BLOCKS>(&place, &part.code[at..], owed, &mut found);
    found.into_result()
}

/// Scans as `scan_part_as` does, for an image of the first format.
pub fn scan_part(
    alloc: Global,
    sandbox: u32,
    part: &SandboxPart,
) -> Result<Vec<Finding>, AllocError>
    requires { IsRightPart (view Sfi1 part.now) }
    ensures { IfOk result (λ found. AreFindings sandbox (view Sfi1 part.now) found.items) }
{
    scan_part_as(alloc, Format::Sfi1, sandbox, part)
}
