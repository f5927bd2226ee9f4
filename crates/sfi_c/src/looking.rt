//! The calls by which C reads what is in an image.
ghost use Rattle.std.specs.Prelude.{◌≡◌, ◌≢◌, ◌+◌, ◌<◌, ◌≤◌, length, slice_get, Some, IfOk, IfErr};
ghost use Rattle.sfi_c.specs.declared.looking.Lookup.TheVariants.{NoImage};
ghost use Rattle.sfi_c.specs.private.{said_by, HasPart, HasGate, HasFault, IsSaid};
ghost use Rattle.sfi_image.specs.declared.fault.LayoutFault.{LayoutFault};
ghost use Rattle.sfi_image.specs.Spelling.{Part, part};
ghost use Rattle.sfi_image.specs.Keeping.{IsViewOf};
ghost use Rattle.sfi_image.specs.Faults.{IsFault};
ghost use Rattle.sfi_image.specs.Keeping.{sandbox_offset, IsSandboxOf, IsBeyond};
ghost use Rattle.sfi_c.specs.Parts.{lookup_number, IsPartOf, IsGateOf, IsBeyondGates, AreGatesOf};

use crate::part::{SfiGate, SfiPart, copy_gates, gate_for_c, part_for_c};
use sfi_image::{Gate, LayoutFault, PartView, sandbox_of};

/// What is said of a sandbox or a gate that was asked for: `enum sfi_lookup` of include/sfi.h, and
/// `SFI_NO_IMAGE`.
#[derive(Clone, Copy, PartialEq, Eq, Debug)]
pub enum Lookup {
    /// The image has the sandbox or gate.
    Found,
    /// The image has fewer sandboxes, or the sandbox fewer gates.
    Beyond,
    /// The bytes are no image.
    NoImage,
}

impl Lookup {
    ghost use Rattle.sfi_c.specs.Parts.{lookup_number};

    /// The number by which C knows it, 0 to 2.
    pub fn number(self) -> u32
        ensures { result ≡ lookup_number self }
    {
        match self {
            Lookup::Found => 0,
            Lookup::Beyond => 1,
            Lookup::NoImage => 2,
        }
    }
}

impl From<LayoutFault> for Lookup {
    ghost from_gives = { λ _ l. l ≡ NoImage };

    // Which fault it is, `sfi_c_check` says.
    fn from(_fault: LayoutFault) -> Lookup {
        Lookup::NoImage
    }
}

/// What C is told of a search: that it found something, or why not.
pub(crate) fn lookup_of<T>(sought: &Result<T, Lookup>) -> Lookup
    ensures { result ≡ said_by sought.now }
{
    match sought {
        Ok(_) => Lookup::Found,
        Err(lookup) => *lookup,
    }
}

/// What the image has of its sandbox `number`, counted from 0, and the offset of the first byte
/// after it in the image. The error is never `Found`.
fn find_sandbox<'a>(image: &'a [u8], number: u32) -> Result<(PartView<'a>, usize), Lookup>
    ensures found { IfOk result (λ f. (p : Part) × (h : IsSandboxOf image.entry.now number p)
        × IsViewOf f.0 p × (f.1 ≡ sandbox_offset h.parts number + length (part p))) }
    ensures said { IsSaid (HasPart image.entry.now number) (IsBeyond image.entry.now number)
        (HasFault image.entry.now) (said_by result) }
    ensures missing { IfErr result (λ l. l ≢ Lookup.Found) }
{
    match sandbox_of(image, number)? {
        Some(found) => Ok(found),
        None => Err(Lookup::Beyond),
    }
}

/// Gate `index` of the image's sandbox `number`, both counted from 0. The error is never `Found`.
fn look_up_gate(image: &[u8], number: u32, index: u32) -> Result<Gate, Lookup>
    ensures found { IfOk result (λ g. (p : Part) × IsSandboxOf image.now number p
        × (slice_get p.gates index ≡ Some g)) }
    ensures said { IsSaid (HasGate image.now number index) (IsBeyondGates image.now number index)
        (HasFault image.now) (said_by result) }
    ensures missing { IfErr result (λ l. l ≢ Lookup.Found) }
{
    let (view, _) = find_sandbox(image, number)?;
    match view.gate(index) {
        Some(gate) => Ok(gate),
        None => Err(Lookup::Beyond),
    }
}

/// Writes to `part` what the image has of its sandbox `number`, counted from 0, and returns
/// the number of a [`Lookup`]. It looks at the layout alone, and takes no memory.
#[unsafe(no_mangle)]
pub extern "C" fn sfi_c_part(image: &[u8], number: u32, part: &mut SfiPart) -> u32
    ensures known { result ≤ 2 }

    // What each status means.
    ensures found { result ≡ lookup_number Lookup.Found → IsPartOf image.now number part.new }
    ensures beyond { result ≡ lookup_number Lookup.Beyond → IsBeyond image.now number }
    ensures layout { result ≡ lookup_number Lookup.NoImage
        → (k : LayoutFault) × IsFault image.now k }
    ensures unwritten { result ≢ lookup_number Lookup.Found → part.new ≡ part.old }

    // Which bytes get each status.
    ensures only_found { (p : Part) → IsSandboxOf image.now number p
        → result ≡ lookup_number Lookup.Found }
    ensures only_beyond { IsBeyond image.now number → result ≡ lookup_number Lookup.Beyond }
    ensures only_layout { (k : LayoutFault) → IsFault image.now k
        → result ≡ lookup_number Lookup.NoImage }
{
    let sought = find_sandbox(image, number);
    let lookup = lookup_of(&sought);
    if let Ok((view, end)) = sought {
        *part = part_for_c(&view, end);
    }
    lookup.number()
}

/// Writes to `gate` gate `index`, counted from 0, of the image's sandbox `number`, and returns the
/// number of a [`Lookup`]. Gates are in the order of their addresses. It looks at the layout alone,
/// and takes no memory.
#[unsafe(no_mangle)]
pub extern "C" fn sfi_c_gate(image: &[u8], number: u32, index: u32, gate: &mut SfiGate) -> u32
    ensures known { result ≤ 2 }

    // What each status means.
    ensures found { result ≡ lookup_number Lookup.Found → IsGateOf image.now number index gate.new }
    ensures beyond { result ≡ lookup_number Lookup.Beyond → IsBeyondGates image.now number index }
    ensures layout { result ≡ lookup_number Lookup.NoImage
        → (k : LayoutFault) × IsFault image.now k }
    ensures unwritten { result ≢ lookup_number Lookup.Found → gate.new ≡ gate.old }

    // Which bytes get each status.
    ensures only_found { (p : Part) → IsSandboxOf image.now number p → index < length p.gates
        → result ≡ lookup_number Lookup.Found }
    ensures only_beyond { IsBeyondGates image.now number index
        → result ≡ lookup_number Lookup.Beyond }
    ensures only_layout { (k : LayoutFault) → IsFault image.now k
        → result ≡ lookup_number Lookup.NoImage }
{
    let sought = look_up_gate(image, number, index);
    let lookup = lookup_of(&sought);
    if let Ok(found) = sought {
        *gate = gate_for_c(found);
    }
    lookup.number()
}

/// Writes to the array the gates of the image's sandbox `number`, counted from 0: by address,
/// from its front on, as many as it has room for. Returns the number of a [`Lookup`] of the
/// sandbox, whose `gates` tells how many there are. It looks at the layout alone, and takes no
/// memory.
#[unsafe(no_mangle)]
pub extern "C" fn sfi_c_gates(image: &[u8], number: u32, array: &mut [SfiGate]) -> u32
    ensures known { result ≤ 2 }

    // What each status means.
    ensures found { result ≡ lookup_number Lookup.Found
        → AreGatesOf image.now number array.old array.new }
    ensures beyond { result ≡ lookup_number Lookup.Beyond → IsBeyond image.now number }
    ensures layout { result ≡ lookup_number Lookup.NoImage
        → (k : LayoutFault) × IsFault image.now k }
    ensures unwritten { result ≢ lookup_number Lookup.Found → array.new ≡ array.old }

    // Which bytes get each status.
    ensures only_found { (p : Part) → IsSandboxOf image.now number p
        → result ≡ lookup_number Lookup.Found }
    ensures only_beyond { IsBeyond image.now number → result ≡ lookup_number Lookup.Beyond }
    ensures only_layout { (k : LayoutFault) → IsFault image.now k
        → result ≡ lookup_number Lookup.NoImage }
{
    let sought = find_sandbox(image, number);
    let lookup = lookup_of(&sought);
    if let Ok((view, _)) = sought {
        copy_gates(&view, array);
    }
    lookup.number()
}
