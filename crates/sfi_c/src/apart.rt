//! Whether two sandboxes lie apart, of one image or of two.
ghost use Rattle.std.specs.Prelude.{◌≡◌, ◌↔◌, IsTrue, List, ℕ, [], ◌∷◌};
ghost use Rattle.sfi_image.specs.Spelling.{Part};
ghost use Rattle.sfi_places.specs.Beside.{AreBeside};
ghost use Rattle.sfi_c.specs.Moves.{told_bounds, AreToldApart};
ghost use Rattle.sfi_image.specs.Keeping.{IsSandboxOf};
ghost use Rattle.sfi_c.specs.Parts.{Tells};

use crate::part::SfiPart;
use sfi_formats::Format;
use sfi_image::{Bounds, are_bounds_apart};

/// Where the sandbox lies, and its image's format.
fn bounds_of(part: &SfiPart) -> Bounds
    ensures { result ≡ told_bounds part.now }
{
    Bounds {
        format: Format::numbered(part.format),
        code_base: part.code_base,
        code_size: part.code_size,
        data_base: part.data_base,
        data_size: part.data_size,
    }
}

/// Whether no region or guard zone of one has an address in common with one of the other, nor with
/// a zone at zero of the other: that is the addresses below its data size + 4096 and the last 4096,
/// if it is of the fourth format.
fn are_told_apart(one: &SfiPart, other: &SfiPart) -> bool
    ensures { IsTrue result ↔ AreToldApart one.now other.now }
{
    are_bounds_apart(&bounds_of(one), &bounds_of(other))
}

/// Tells whether no region or guard zone of one has an address in common with one of the other, nor
/// with a zone at zero of the other, by their formats, bases and sizes alone: so sandboxes of two
/// images may lie in memory together.
#[unsafe(no_mangle)]
pub extern "C" fn sfi_c_apart(one: &SfiPart, other: &SfiPart) -> bool
    ensures apart { IsTrue result ↔ AreToldApart one.now other.now }

    // Where `one` and `other` are sandboxes of images, of the same image or of two.
    ensures beside { (bytes others : List ℕ) (number further : ℕ) (p q : Part)
        → (h : IsSandboxOf bytes number p) → (g : IsSandboxOf others further q)
        → Tells bytes h.parts number p one.now → Tells others g.parts further q other.now
        → IsTrue result ↔ AreBeside (p ∷ []) (q ∷ []) }
{
    are_told_apart(one, other)
}
