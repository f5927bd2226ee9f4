//! The calls by which C gets the verdict on an image that comes in pieces: [`sfi_c_begin`],
//! [`sfi_c_feed`] for each piece, and [`sfi_c_end`].
ghost use Rattle.std.specs.Prelude.{◌≡◌, ◌≤◌, ◌↔◌, ℕ, List, [], ◌∷◌, ◌++◌, length, IsTrue};
ghost use Rattle.sfi_image.specs.declared.fault.LayoutFault.{LayoutFault};
ghost use Rattle.sfi_image.specs.Spelling.{Part};
ghost use Rattle.sfi_image.specs.Faults.{IsFault, number_of as fault_number};
ghost use Rattle.sfi_rules.specs.declared.finding.Finding.{Finding};
ghost use Rattle.sfi_check.specs.Verdict.{HasFindings, bundle_count};
ghost use Rattle.sfi_safety.specs.Clean.{IsAccepted};
ghost use Rattle.sfi_check.specs.ForC.{number_of, acceptance, refusal, no_image, IsAcceptance, IsRefusal, IsLayoutFault};
ghost use Rattle.sfi_c.specs.Streams.{IsStreamOf};
ghost use Rattle.sfi_c.specs.Streams.{AreRefusedAlready};

use crate::numbers::fault_numbered;
use crate::stream::{SfiStream, feed_of, kept};
use sfi_check::{Feed, SfiVerdict, Status};

/// Begins an image: no byte of it was fed. What the stream held before doesn't matter.
#[unsafe(no_mangle)]
pub extern "C" fn sfi_c_begin(stream: &mut SfiStream)
    ensures { IsStreamOf stream.new [] }
{
    *stream = kept(&Feed::new());
}

/// Takes the bytes of the image that come next: any number of them. It takes no memory.
#[unsafe(no_mangle)]
pub extern "C" fn sfi_c_feed(stream: &mut SfiStream, bytes: &[u8])
    requires { (before : List ℕ) × IsStreamOf stream.old before }
    ensures { (before : List ℕ) → IsStreamOf stream.old before
        → IsStreamOf stream.new (before ++ bytes.now) }
{
    let mut feed = feed_of(stream);
    feed.feed(bytes);
    *stream = kept(&feed);
}

/// Writes the verdict on all bytes that were fed so far to `verdict`, and returns its status, the
/// number of a [`Status`]. It may be asked for at any time, and more bytes may be fed afterwards.
#[unsafe(no_mangle)]
pub extern "C" fn sfi_c_end(stream: &SfiStream, verdict: &mut SfiVerdict) -> u32
    requires { (bytes : List ℕ) × IsStreamOf stream.now bytes }
    ensures status { result ≡ verdict.new.status }
    ensures known { result ≤ 2 }

    // What each status means. Accepted means that every run of each sandbox is safe.
    ensures accepted { (bytes : List ℕ) → IsStreamOf stream.now bytes
        → result ≡ number_of Status.Accepted → IsAcceptance bytes verdict.new }
    ensures refused { (bytes : List ℕ) → IsStreamOf stream.now bytes
        → result ≡ number_of Status.Refused
        → (first : Finding) × (rest : List Finding) × IsRefusal bytes first rest verdict.new }
    ensures layout { (bytes : List ℕ) → IsStreamOf stream.now bytes
        → result ≡ number_of Status.NoImage → IsLayoutFault bytes verdict.new }

    // Which bytes get each status.
    ensures only_accepted { (bytes : List ℕ) → IsStreamOf stream.now bytes
        → (ps : List Part) → IsAccepted bytes ps
        → verdict.new ≡ acceptance (length ps) (bundle_count ps) }
    ensures only_refused { (bytes : List ℕ) → IsStreamOf stream.now bytes
        → (first : Finding) (rest : List Finding) → HasFindings bytes (first ∷ rest)
        → verdict.new ≡ refusal (length (first ∷ rest)) first }
    ensures only_layout { (bytes : List ℕ) → IsStreamOf stream.now bytes
        → (k : LayoutFault) → IsFault bytes k → verdict.new ≡ no_image (fault_number k) }
{
    *verdict = SfiVerdict::from_answer(feed_of(stream).answer());
    verdict.status
}

/// Tells whether the bytes that were fed so far are refused already: they have a fault of the layout
/// other than that they are cut short, or a rule is broken in the bundles that have come whole. Then
/// no image that begins with them is accepted. It may be asked at any time.
#[unsafe(no_mangle)]
pub extern "C" fn sfi_c_refused(stream: &SfiStream) -> bool
    requires { (bytes : List ℕ) × IsStreamOf stream.now bytes }
    ensures refused { (bytes : List ℕ) → IsStreamOf stream.now bytes
        → IsTrue result ↔ AreRefusedAlready bytes }
    ensures never_accepted { (bytes more : List ℕ) → IsStreamOf stream.now bytes → IsTrue result
        → (ps : List Part) → IsAccepted (bytes ++ more) ps → ⊥ }
{
    if fault_numbered(stream.fault).is_some() {
        return true;
    }
    stream.findings > 0
}
