//! The calls by which C gets the verdict on an image that lies in memory as a whole.
ghost use Rattle.std.specs.Prelude.{◌≡◌, ◌≢◌, ◌≤◌, List, ◌∷◌, length};
ghost use Rattle.sfi_image.specs.declared.fault.LayoutFault.{LayoutFault};
ghost use Rattle.sfi_image.specs.Spelling.{Part};
ghost use Rattle.sfi_image.specs.Faults.{IsFault, number_of as fault_number};
ghost use Rattle.sfi_rules.specs.declared.finding.Finding.{Finding};
ghost use Rattle.sfi_check.specs.Verdict.{HasFindings, bundle_count};
ghost use Rattle.sfi_safety.specs.Clean.{IsAccepted};
ghost use Rattle.sfi_check.specs.ForC.{number_of, acceptance, refusal, no_image, IsAcceptance, IsRefusal, IsLayoutFault};
ghost use Rattle.sfi_c.specs.Parts.{with_findings};

use crate::finding::{Array, write_findings};
use sfi_check::{SfiFinding, SfiVerdict, Status, check_into};

/// Writes the verdict on the bytes to `verdict`, and returns its status, the number of a
/// [`Status`]. It takes no memory.
#[unsafe(no_mangle)]
pub extern "C" fn sfi_c_check(image: &[u8], verdict: &mut SfiVerdict) -> u32
    ensures status { result ≡ verdict.new.status }
    ensures known { result ≤ 2 }

    // What each status means. Accepted means that every run of each sandbox is safe.
    ensures accepted { result ≡ number_of Status.Accepted → IsAcceptance image.now verdict.new }
    ensures refused { result ≡ number_of Status.Refused → (first : Finding) × (rest : List Finding)
        × IsRefusal image.now first rest verdict.new }
    ensures layout { result ≡ number_of Status.NoImage → IsLayoutFault image.now verdict.new }

    // Which bytes get each status.
    ensures only_accepted { (ps : List Part) → IsAccepted image.now ps
        → verdict.new ≡ acceptance (length ps) (bundle_count ps) }
    ensures only_refused { (first : Finding) (rest : List Finding)
        → HasFindings image.now (first ∷ rest)
        → verdict.new ≡ refusal (length (first ∷ rest)) first }
    ensures only_layout { (k : LayoutFault) → IsFault image.now k
        → verdict.new ≡ no_image (fault_number k) }
{
    // An array with no room for a finding, so that both calls are compiled to one scan.
    let mut none = Array {
        elements: &mut [],
        written: 0,
    };
    *verdict = SfiVerdict::from_answer(check_into(image, &mut none));
    verdict.status
}

/// Writes the image's findings to `sink`, in which nothing is written yet, as many as it has room
/// for.
fn fill_with_findings(image: &[u8], sink: &mut Array<'_>)
    requires { sink.old.written ≡ 0 }
    ensures same_array { sink.new.elements.ghost_name ≡ sink.old.elements.ghost_name }
    ensures listed { (found : List Finding) → HasFindings image.now found
        → sink.new.elements.now ≡ with_findings found sink.old.elements.now }
{
    check_into(image, sink);
}

/// Writes the image's findings to the array, from its front on, as many as it has room for.
fn list_findings(image: &[u8], array: &mut [SfiFinding])
    ensures { (found : List Finding) → HasFindings image.now found
        → array.new ≡ with_findings found array.old }
{
    let mut sink = Array {
        elements: array,
        written: 0,
    };
    fill_with_findings(image, &mut sink);
}

/// Writes the verdict on the bytes to `verdict`, and returns its status, the number of a
/// [`Status`]. Where an image is refused, its findings are written to the array, from its front on,
/// as many as it has room for; the verdict tells how many there are. It takes no memory.
#[unsafe(no_mangle)]
pub extern "C" fn sfi_c_findings(
    image: &[u8],
    array: &mut [SfiFinding],
    verdict: &mut SfiVerdict,
) -> u32
    ensures status { result ≡ verdict.new.status }
    ensures known { result ≤ 2 }

    // What each status means. Accepted means that every run of each sandbox is safe.
    ensures accepted { result ≡ number_of Status.Accepted → IsAcceptance image.now verdict.new }
    ensures refused { result ≡ number_of Status.Refused → (first : Finding) × (rest : List Finding)
        × IsRefusal image.now first rest verdict.new
        × (array.new ≡ with_findings (first ∷ rest) array.old) }
    ensures layout { result ≡ number_of Status.NoImage → IsLayoutFault image.now verdict.new }
    ensures unwritten { result ≢ number_of Status.Refused → array.new ≡ array.old }

    // Which bytes get each status.
    ensures only_accepted { (ps : List Part) → IsAccepted image.now ps
        → verdict.new ≡ acceptance (length ps) (bundle_count ps) }
    ensures only_refused { (first : Finding) (rest : List Finding)
        → HasFindings image.now (first ∷ rest)
        → verdict.new ≡ refusal (length (first ∷ rest)) first }
    ensures only_layout { (k : LayoutFault) → IsFault image.now k
        → verdict.new ≡ no_image (fault_number k) }
{
    let status = sfi_c_check(image, verdict);
    if status == Status::Refused.number() {
        list_findings(image, array);
    }
    status
}
