//! An accepted image that was decoded once, for many worlds.
ghost use Rattle.std.specs.Prelude.{◌≡◌, ◌↔◌, map, length, IfOk, IsTrue, OnOk};
ghost use Rattle.std.specs.FinMap.{empty};
ghost use Rattle.sfi_formats.specs.declared.format.Format.{Format};
ghost use Rattle.sfi_image.specs.Parts.{IsRightPart, IsRightLayout};
ghost use Rattle.rv_mem.specs.Bytes.{Bytes};
ghost use Rattle.sfi_image.specs.Spelling.{view, views};
ghost use Rattle.sfi_safety.specs.Clean.{MayRun};
ghost use Rattle.sfi_host.specs.Adding.{MeetsSome};
ghost use Rattle.sfi_host.specs.Loading.{first_seat, with_parts, AreEntered, HaveFirstData};
ghost use Rattle.sfi_host.specs.Modules.{part_of, parts_of, program_in, HavePrograms};
ghost use Rattle.sfi_decoded.specs.Programs.{IsProgramOf};
ghost use Rattle.sfi_host.specs.Modules.{programs_of};
ghost use Rattle.sfi_host.specs.Sessions.{IsSoundWorld};
ghost use Rattle.sfi_host.specs.Worlds.{seats_of, world_of};
ghost use Rattle.sfi_host.specs.Worlds.{IsSafeWorld};
ghost use Rattle.sfi_host.specs.private.Sandboxes.{AreProgramsOf};

use crate::loading::load_parts;
use crate::meeting::some_meet;
use crate::sandbox::Sandbox;
use crate::world::World;
use rv_mem::Memory;
use sfi_check::Accepted;
use sfi_decoded::{Program, decode};
use sfi_formats::Format;
use sfi_image::{Gate, SandboxPart};
use std::alloc::{AllocError, Global};
use std::marker::Model;
use std::sync::{Arc, ArcSlice};

/// A part of an image, with its code decoded. Worlds share the program and the first data bytes,
/// which nothing writes, and copy the rest.
#[derive(Drop)]
pub struct ModulePart {
    pub code_base: u32,
    pub data_base: u32,
    pub data_size: u32,
    pub start: u32,
    pub gates: Vec<Gate>,
    pub code: Vec<u8>,
    pub init: ArcSlice<u8>,
    pub program: Arc<Program>,
}

impl ModulePart {
    /// A copy of a part of an image, with its code decoded into its program. An error means that memory
    /// ran out.
    fn from_part(alloc: Global, part: &SandboxPart<'_>) -> Result<ModulePart, AllocError>
        requires { (format : Format) × IsRightPart (view format part.now) }
        ensures part { (format : Format)
            → IfOk result (λ p. part_of format p ≡ view format part.now) }
        ensures program { (format : Format)
            → IfOk result (λ p. IsProgramOf (view format part.now) (program_in p)) }
    {
        let decoded = decode(alloc, part)?;
        let program = Arc::new(alloc, decoded)?;
        Ok(ModulePart {
            code_base: part.code_base,
            data_base: part.data_base,
            data_size: part.data_size,
            start: part.start,
            gates: Vec::from_slice(alloc, &part.gates)?,
            code: Vec::from_slice(alloc, part.code)?,
            init: ArcSlice::from_slice(alloc, part.init)?,
            program,
        })
    }
}

/// Copies of all parts of an image, in order, each with its code decoded into its program.
fn copy_parts(alloc: Global, parts: &[SandboxPart<'_>]) -> Result<Vec<ModulePart>, AllocError>
    requires { (format : Format) × IsRightLayout (views format parts.now) }
    ensures parts { (format : Format)
        → IfOk result (λ all. parts_of format all.items ≡ views format parts.now) }
    ensures programs { (format : Format) → IfOk result (λ all. HavePrograms format all.items) }
{
    let mut all = Vec::with_capacity(alloc, parts.len())?;
    for part in parts {
        all.push(ModulePart::from_part(alloc, part)?)?;
    }
    Ok(all)
}

/// The program of each part, in order: each gets one more owner, and none is copied.
fn share_programs(alloc: Global, parts: &[ModulePart]) -> Result<Vec<Arc<Program>>, AllocError>
    ensures { IfOk result (λ all. programs_of all.items ≡ map program_in parts.now) }
{
    let mut all = Vec::with_capacity(alloc, parts.len())?;
    for part in parts {
        all.push(Arc::try_clone(&part.program)?)?;
    }
    Ok(all)
}

/// An accepted image that was decoded once: what its worlds share, and what each begins with. It
/// keeps nothing of the image's bytes, and may be dropped before its worlds are, or after them.
/// Contracts see it as the list of the image's parts, as they see an [`Accepted`].
#[derive(Drop)]
pub struct Module {
    format: Format,
    parts: Vec<ModulePart>,
}

impl Model for Module {
    ghost use Rattle.std.specs.Prelude.{List};
    ghost use Rattle.sfi_image.specs.Spelling.{Part};
    ghost use Rattle.sfi_host.specs.Modules.{parts_of, IsModule};

    ghost Value = { List Part };

    ghost view = { λ m. parts_of m.format m.parts.items };

    ghost invariant = { λ m. IsModule m.format m.parts.items };
}

impl Module {
    /// The module of an image. An error means that memory ran out.
    pub fn from_accepted(alloc: Global, accepted: &Accepted<'_>) -> Result<Module, AllocError>
        ensures { IfOk result (λ m. m ≡ accepted.now) }
    {
        let image = accepted.image();
        let parts = copy_parts(alloc, image.parts())?;
        Ok(Module {
            format: image.format(),
            parts,
        })
    }

    /// A world of the image, before any turn: what [`World::load`] makes of the image itself, with
    /// nothing checked or decoded anew. Its memory is its own; so nothing that its sandboxes do
    /// changes the module, or another world of it. `memory` is to be empty. An error means that the host's
    /// memory ran out; `memory` is dropped then.
    pub fn instance<M: Memory>(&self, alloc: Global, memory: M) -> Result<World<M>, AllocError>
        requires { M.bytes memory ≡ empty }
        ensures seats { IfOk result (λ w. w.seats ≡ map first_seat self.now) }
        ensures bytes { IfOk result (λ w. w.bytes ≡ with_parts empty self.now) }

        // As of `World::load`.
        ensures entered { IfOk result (λ w. AreEntered self.now w.bytes) }
        ensures first_data { IfOk result (λ w. HaveFirstData self.now w.bytes) }
        ensures safe { IfOk result (λ w. IsSafeWorld w) }
        ensures sound { IfOk result (λ w. IsSoundWorld w) }
    {
        let mut memory = memory;
        let sandboxes = self.load(alloc, &mut memory)?;
        let programs = self.programs(alloc)?;
        Ok(World::of_parts(memory, sandboxes, programs))
    }

    /// The image's sandboxes before any turn, with their code and data added to the memory.
    pub(crate) fn load<M: Memory>(
        &self,
        alloc: Global,
        memory: &mut M,
    ) -> Result<Vec<Sandbox>, AllocError>
        ensures runs { MayRun self.now }
        ensures seats { IfOk result (λ all. seats_of all.items ≡ map first_seat self.now) }
        ensures bytes { OnOk result
            (M.bytes memory.new ≡ with_parts (M.bytes memory.old) self.now) }
    {
        load_parts(alloc, self.format, &self.parts, memory)
    }

    /// The program, which is the decoded code, of each part in order. Worlds share it.
    pub(crate) fn programs(&self, alloc: Global) -> Result<Vec<Arc<Program>>, AllocError>
        ensures { IfOk result (λ all. AreProgramsOf self.now (programs_of all.items)) }
    {
        share_programs(alloc, &self.parts)
    }

    /// Whether a sandbox of these meets one of the image, so that they can't be in one world
    /// (`meeting.rt`). The bytes of their memory make no difference.
    pub(crate) fn meets(&self, sandboxes: &[Sandbox]) -> bool
        requires { (m : Bytes) × IsSafeWorld (world_of m sandboxes.now) }
        ensures { (m : Bytes) → IsTrue result ↔ MeetsSome (world_of m sandboxes.now) self.now }
    {
        some_meet(sandboxes, self.format, &self.parts)
    }

    /// How many sandboxes the image has; at least one.
    pub(crate) fn len(&self) -> usize
        ensures runs { MayRun self.now }
        ensures count { result ≡ length self.now }
    {
        self.parts.len()
    }
}
