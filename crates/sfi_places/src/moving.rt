//! Moving a sandbox of an image.
ghost use Rattle.std.specs.Prelude.{◌≡◌, ℕ, ◌+◌, ◌↔◌, List, length, Ok, Err, OnOk, IfOk, IfErr};
ghost use Rattle.sfi_image.specs.Spelling.{Part, part, fields_of};
ghost use Rattle.std.specs.Bool.{OnTrue, OnFalse};
ghost use Rattle.sfi_image.specs.Faults.{IsFault};
ghost use Rattle.sfi_image.specs.Parts.{IsImage};
ghost use Rattle.sfi_safety.specs.Clean.{IsAccepted};
ghost use Rattle.sfi_image.specs.Keeping.{IsSandboxOf, sandbox_offset};
ghost use Rattle.sfi_places.specs.Moving.{IsMoved, IsMoveFault};

use crate::addresses::{GATES_AT, write_place};
use crate::names::write_names;
use sfi_formats::{Place, REGION_LEAST};
use sfi_image::{Fields, LayoutFault, is_region, sandbox_of};

/// Why a sandbox can't be moved.
#[derive(Clone, Copy, PartialEq, Eq, Debug)]
pub enum MoveFault {
    /// The bytes are no image.
    NoImage(LayoutFault),
    /// The image has fewer sandboxes.
    NoSandbox,
    /// The place is wrong: a base is no multiple of its region's size, the data have no room for a
    /// guard zone, or a region or guard zone overlaps one of this or another sandbox. In the fourth
    /// format also: the data base is no single bit or below the data's size, or a region or guard
    /// zone lies in a zone at zero.
    NoPlace,
}

impl From<LayoutFault> for MoveFault {
    ghost use Rattle.std.specs.Prelude.{◌≡◌};
    ghost use Rattle.sfi_places.specs.declared.moving.MoveFault.TheVariants.{NoImage};

    ghost from_gives = { λ k f. f ≡ NoImage k };

    fn from(fault: LayoutFault) -> MoveFault {
        MoveFault::NoImage(fault)
    }
}

/// The fields of the image's sandbox `number`, counted from 0, the offset of its first byte in the
/// image, and that of the first byte after it.
fn fields_of_sandbox(image: &[u8], number: u32) -> Result<(Fields, usize, usize), MoveFault>
    ensures found { IfOk result (λ f. (p : Part) × (h : IsSandboxOf image.now number p)
        × (f.0 ≡ fields_of p) × (f.1 ≡ sandbox_offset h.parts number)
        × (f.2 ≡ sandbox_offset h.parts number + length (part p))) }
    ensures missing { IfErr result (λ e. (to : Place) → IsMoveFault image.now number to e) }
{
    let Some((view, end)) = sandbox_of(image, number)? else {
        return Err(MoveFault::NoSandbox);
    };
    let length = view.gates.len() + view.code.len() + view.init.len();
    Ok((view.fields, end - length - GATES_AT, end))
}

/// Whether the bytes are an image: whether no test of the layout fails. Its code isn't judged.
fn is_image(bytes: &[u8]) -> bool
    ensures image { OnTrue result ((ps : List Part) × IsImage bytes.now ps) }
    ensures fault { OnFalse result ((k : LayoutFault) × IsFault bytes.now k) }
{
    sandbox_of(bytes, 0).is_ok()
}

/// Moves the sandbox to the place, if that is right. The code base is tested first, so that no
/// moved address passes 2^32; the rest is seen at the image as it would be, which is written back
/// if that is none.
fn try_move(image: &mut [u8], number: u32, code_base: u32, data_base: u32) -> Result<(), MoveFault>
    ensures moved { OnOk result (IsMoved image.old number
        (record { code_base = code_base; data_base = data_base }) image.new) }
    ensures fault { IfErr result (IsMoveFault image.old number
        (record { code_base = code_base; data_base = data_base })) }
    ensures unmoved { IfErr result (λ e. image.new ≡ image.old) }
{
    let (fields, offset, end) = fields_of_sandbox(image, number)?;
    let most = fields.format.code_most();
    if !is_region(code_base, fields.code_size, REGION_LEAST, most) {
        return Err(MoveFault::NoPlace);
    }
    let to = Place {
        code_base,
        data_base,
    };
    let from = Place {
        code_base: fields.code_base,
        data_base: fields.data_base,
    };
    write_place(image, offset, fields.gate_count, from, to);
    if is_image(image) {
        write_names(image, end - fields.init_len as usize, end, &fields, to);
        return Ok(());
    }
    write_place(image, offset, fields.gate_count, to, from);
    Err(MoveFault::NoPlace)
}

/// Moves the image's sandbox `number`, counted from 0, to the place: of the image's bytes only its
/// two bases, its start, its gates' addresses and those in its table of names change, and with an
/// error none. It takes no memory.
pub fn move_sandbox(image: &mut [u8], number: u32, to: Place) -> Result<(), MoveFault>
    // What each answer means.
    ensures moved { OnOk result (IsMoved image.old number to image.new) }
    ensures fault { IfErr result (IsMoveFault image.old number to) }
    ensures unmoved { IfErr result (λ e. image.new ≡ image.old) }

    // Which bytes get each answer.
    ensures only_moved { (now : List ℕ) → IsMoved image.old number to now → result ≡ Ok tt }
    ensures only_fault { (e : MoveFault) → IsMoveFault image.old number to e → result ≡ Err e }

    // The verdict doesn't change.
    ensures accepted { OnOk result ((ps qs : List Part) → IsImage image.old ps → IsImage image.new qs
        → IsAccepted image.old ps ↔ IsAccepted image.new qs) }
{
    try_move(image, number, to.code_base, to.data_base)
}
