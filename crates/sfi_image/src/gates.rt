//! Which gate may follow others.
ghost use Rattle.std.specs.Prelude.{◌≡◌, ◌-◌, ◌++◌, ◌↔◌, ◌∷◌, [], List, length, map, slice_get, IsTrue};
ghost use Rattle.sfi_image.specs.declared.part.Gate.{Gate};
ghost use Rattle.sfi_image.specs.Numbers.{AreGateWords};
ghost use Rattle.sfi_image.specs.Spelling.{code_span};
ghost use Rattle.sfi_image.specs.Parts.{AreGates};

use crate::fields::{Fields, is_bundle_start};
use crate::part::Gate;
use sfi_formats::SERVICE_MOST;

/// Whether the gate may follow gates whose last one has address `last`, `None` if it is the first:
/// it is at a bundle start of the sandbox with these fields, asks for a service that there is, and
/// lies above `last`.
pub(crate) fn is_next_gate(fields: &Fields, last: Option<u32>, gate: Gate) -> bool
    ensures next { (gs : List Gate) → last ≡ slice_get (map (λ g. g.address) gs) (length gs - 1)
        → AreGates (code_span fields.now) gs
        → IsTrue result ↔ AreGates (code_span fields.now) (gs ++ gate ∷ []) }
    ensures words { AreGateWords gate }
{
    if !is_bundle_start(fields, gate.address) {
        return false;
    }
    if gate.service > SERVICE_MOST {
        return false;
    }
    match last {
        Some(last) => last < gate.address,
        None => true,
    }
}
