//! Where a sandbox's state lies.
ghost use Rattle.std.specs.Prelude.{◌≡◌, ◌^◌, ◌≤◌, IfSome, IfNone};
ghost use Rattle.sfi_image.specs.Spelling.{view};
ghost use Rattle.sfi_native.specs.Layout.{IsLayout, closed_above as is_closed_above, closed_below as is_closed_below};

use crate::plan::Plan;
use sfi_formats::Format;
use sfi_image::SandboxPart;

/// The bytes of a page, and of a guard zone.
const PAGE: u64 = 4096;
/// How many addresses a sandbox has.
const ADDRESSES: u64 = 1 << 32;
/// Where a process's memory ends.
const END: u64 = 1 << 47;

/// Where a sandbox's state lies: in registers of the processor, a frame, and the host's memory of its data.
#[derive(Drop)]
pub struct Layout {
    /// Which registers lie in the processor's.
    pub plan: Plan,
    /// The address of the frame, 144 bytes.
    pub frame: u64,
    /// The address of the data's first byte.
    pub data_start: u64,
}

/// How many bytes below the data are closed: the host maps nothing there, so that accesses fault.
#[tactic(auto, unfolding(crate::specs::Layout::closed_below))]
fn closed_below(format: Format, part: &SandboxPart<'_>) -> u64
    ensures is { result ≡ is_closed_below (view format part.now) }
    ensures few { result ≤ 2 ^ 33 }
{
    if format.has_single_mask() {
        return u64::from(part.data_base) + PAGE;
    }
    PAGE
}

/// How many bytes above the data are closed.
#[tactic(auto, unfolding(crate::specs::Layout::closed_above))]
fn closed_above(format: Format, part: &SandboxPart<'_>) -> u64
    ensures is { result ≡ is_closed_above (view format part.now) }
    ensures few { result ≤ 2 ^ 33 }
{
    if !format.has_single_mask() {
        return PAGE;
    }
    let end = u64::from(part.data_base) + u64::from(part.data_size);
    if end > ADDRESSES {
        return PAGE;
    }
    ADDRESSES - end + PAGE
}

impl Layout {
    /// The layout of the sandbox `part`, of an image of the plan's format, with its frame and its
    /// data at these addresses of the host. Bytes on each side of the data are closed, that is, not
    /// mapped: 4096, or, where masks are single, all up to 4096 beyond the sandbox's 2^32 addresses.
    /// None where the plan isn't right, the data aren't whole pages, the frame overlaps data or
    /// closed bytes, or one of these goes on below address 0 or beyond 2^47.
    pub fn new(plan: Plan, frame: u64, data_start: u64, part: &SandboxPart<'_>) -> Option<Layout>
        ensures some { IfSome result (λ l.
            (l ≡ record { plan = plan; frame = frame; data_start = data_start }) × IsLayout (view plan.format part.now) l) }
        ensures none { IfNone result
            (IsLayout (view plan.format part.now) (record { plan = plan; frame = frame; data_start = data_start }) → ⊥) }
    {
        if !plan.is_right() {
            return None;
        }
        let data_size = u64::from(part.data_size);
        if data_start % PAGE != 0 || data_size % PAGE != 0 {
            return None;
        }
        let below = closed_below(plan.format, part);
        let start = data_start.checked_sub(below)?;
        let size = below + data_size + closed_above(plan.format, part);
        if frame > END - 144 || start > END - size {
            return None;
        }
        if frame + 144 <= start || start + size <= frame {
            Some(Layout {
                plan,
                frame,
                data_start,
            })
        } else {
            None
        }
    }
}
