//! Sandboxes and gates of an image as C sees them.
ghost use Rattle.std.specs.Prelude.{◌≡◌, ℕ, ◌+◌, length};
ghost use Rattle.sfi_image.specs.Spelling.{Part, part};
ghost use Rattle.sfi_image.specs.Keeping.{IsViewOf};
ghost use Rattle.sfi_c.specs.Parts.{told_at, told_gate, with_gates};

use sfi_image::{Gate, PartView};

/// A sandbox of an image: `struct sfi_part` of include/sfi.h, field for field.
#[repr(C)]
#[derive(Clone, Copy, PartialEq, Eq, Debug)]
pub struct SfiPart {
    /// The image's format, 1 for `SFI1`, 2 for `SFI2`, 3 for `SFIW` and 4 for `SFIS`.
    pub format: u32,
    /// The first address of the code region.
    pub code_base: u32,
    /// How many bytes the code region has, all of which are in the image.
    pub code_size: u32,
    /// The first address of the data region.
    pub data_base: u32,
    /// How many bytes the data region has.
    pub data_size: u32,
    /// The address at which the sandbox starts to run.
    pub start: u32,
    /// How many gates the sandbox has, 0 to 64.
    pub gates: u32,
    /// How many first data bytes are in the image; zeros follow them in the data region.
    pub init_size: u32,
    /// Where the code begins in the image's bytes, counted from 0: directly after this sandbox's
    /// fields and gates.
    pub code_offset: usize,
    /// Where the first data bytes begin in the image's bytes: directly after the code, also where
    /// there are none.
    pub init_offset: usize,
}

/// A gate of a sandbox: `struct sfi_gate` of include/sfi.h, field for field.
#[repr(C)]
#[derive(Clone, Copy, PartialEq, Eq, Debug)]
pub struct SfiGate {
    /// The listed address. In code in bundles the gate's stub stands there; in words nothing tests
    /// what does.
    pub address: u32,
    /// What the host is asked for, by the number of a service.
    pub service: u32,
}

/// A sandbox as C gets it. `end` is the offset in the image of the first byte after the sandbox.
pub(crate) fn part_for_c(view: &PartView<'_>, end: usize) -> SfiPart
    requires { (p : Part) × (offset : ℕ) × IsViewOf view.now p × (end ≡ offset + length (part p)) }
    ensures { (p : Part) (offset : ℕ) → IsViewOf view.now p → end ≡ offset + length (part p)
        → result ≡ told_at p offset }
{
    let fields = view.fields;
    let init_offset = end - fields.init_len as usize;
    SfiPart {
        format: fields.format.number(),
        code_base: fields.code_base,
        code_size: fields.code_size,
        data_base: fields.data_base,
        data_size: fields.data_size,
        start: fields.start,
        gates: fields.gate_count,
        init_size: fields.init_len,
        code_offset: init_offset - fields.code_size as usize,
        init_offset,
    }
}

/// A gate as C gets it.
pub(crate) fn gate_for_c(gate: Gate) -> SfiGate
    ensures { result ≡ told_gate gate }
{
    SfiGate {
        address: gate.address,
        service: gate.service,
    }
}

/// Writes the gates of the sandbox to the front of the array, as many as it has room for.
pub(crate) fn copy_gates(view: &PartView<'_>, array: &mut [SfiGate])
    requires { (p : Part) × IsViewOf view.now p }
    ensures { (p : Part) → IsViewOf view.now p → array.new ≡ with_gates p.gates array.old }
{
    let count = (view.fields.gate_count as usize).min(array.len());
    for i in 0..count {
        match view.gate(i as u32) {
            Some(gate) => array[i] = gate_for_c(gate),
            None => unreachable!(),
        }
    }
}
