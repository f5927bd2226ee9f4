//! What stands in a bundle.
ghost use Rattle.std.specs.Prelude.{◌≡◌, ◌≤◌, length};
ghost use Rattle.sfi_formats.specs.Limits.{bundle_size};
ghost use Rattle.sfi_rewrite.specs.Expansion.{slot_size, size_of, c_nop};

use rv_comp::Form16;
use rv_word::{Instr, Reg};

/// What stands in a bundle: an instruction that is known whole, or one that waits for the address
/// of a name. `name` is the number of a name among those of its sandbox, counted from 0, and `line`
/// is that of the source, from 1.
#[derive(Clone, Copy)]
pub enum BundleSlot {
    /// A 32-bit instruction.
    Wide(Instr),
    /// A 16-bit form.
    Short(Form16),
    /// A jal or a branch to the name. Its offset is 0 until the name has an address.
    Jump {
        instr: Instr,
        name: usize,
        line: u32,
    },
    /// The lui of the name's address; in a movable sandbox, of how far it is from its region's
    /// base.
    Upper {
        rd: Reg,
        name: usize,
        line: u32,
    },
    /// The addi to `rd` of the address's lower 12 bits, after its lui.
    Lower {
        rd: Reg,
        name: usize,
        line: u32,
    },
    /// The add to `rd` of the base of the region in which the name's address lies.
    Region {
        rd: Reg,
        name: usize,
        line: u32,
    },
}

impl BundleSlot {
    /// How many bytes it takes: 2 or 4.
    pub fn size(&self) -> usize
        ensures { result ≡ slot_size self.now }
    {
        match self {
            BundleSlot::Short(_) => 2,
            BundleSlot::Wide(_)
            | BundleSlot::Jump { .. }
            | BundleSlot::Upper { .. }
            | BundleSlot::Lower { .. }
            | BundleSlot::Region { .. } => 4,
        }
    }
}

/// c.nop, which fills the gaps before expansions.
impl Default for BundleSlot {
    fn default() -> BundleSlot
        ensures { result ≡ c_nop }
    {
        BundleSlot::Short(Form16::CAddi {
            rd: Reg::numbered(0),
            imm: 0,
        })
    }
}

/// How many bytes these slots take together.
pub(crate) fn size_of(slots: &[BundleSlot]) -> usize
    requires { length slots.now ≤ bundle_size }
    ensures { result ≡ size_of slots.now }
{
    let mut size = 0;
    for slot in slots {
        size += slot.size();
    }
    size
}
