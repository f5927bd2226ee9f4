//! The judge: the verdict on bytes that are handed in piece by piece, without taking memory.
ghost use Rattle.std.specs.Prelude.{◌≡◌, ◌≢◌, ℕ, ◌+◌, ◌<◌, ◌≤◌, List, [], ◌++◌, length, take, true, None};
ghost use Rattle.sfi_image.specs.Prefixes.{ImagePrefix};
ghost use Rattle.sfi_image.specs.Keeping.{StandsFor};
ghost use Rattle.sfi_rules.specs.declared.finding.Finding.{Finding};
ghost use Rattle.sfi_check.specs.Verdict.{IsVerdictOn, AreHandedOver};
ghost use Rattle.sfi_check.specs.Feeds.{IsSoFar, IsCut};
ghost use Rattle.sfi_check.specs.Feeds.{IsFed, IsFedFinding};
ghost use Rattle.sfi_check.specs.private.{IsFedOn, left_to_feed};

use crate::piece::{FeedEnd, feed_next, verdict};
use crate::sink::Nowhere;
use crate::stream_answer::StreamAnswer;
use crate::tally::Tally;
use sfi_formats::BUNDLE_BYTES;
use sfi_image::{LayoutFault, LayoutReader, Want};
use sfi_scan::{BUNDLE_BY_BUNDLE, FindingSink, Owed};

/// The size in bytes of the array for the bytes that are held. At most 27 are: what comes next of
/// an image has at most 28 bytes, and a part of it is held only until it is whole. `SfiStream` of
/// `sfi_c` has an array of the same size.
const ROOM: usize = 64;

/// What is known of the bytes that were fed so far, in any pieces. It takes no memory.
///
/// The fields are public so that a caller may keep them elsewhere between two pieces, as C does: a
/// new one has to be in `SfiStream` of `sfi_c`, too.
#[derive(Drop)]
pub struct Feed {
    /// The reader of the layout, which has taken all bytes before those that are held.
    pub reader: LayoutReader,
    /// What was found in the bundles that the reader has taken.
    pub tally: Tally,
    /// At the front, the bytes that are held until what comes next is whole.
    pub held: [u8; ROOM],
    /// How many bytes are held.
    pub count: usize,
    /// The layout's fault that was met, if one was.
    pub fault: Option<LayoutFault>,
}

impl Feed {
    /// A feed to which no byte was fed.
    pub fn new() -> Self
        ensures fed { IsFed result [] }
        ensures none_found { IsFedFinding (λ found. found ≡ []) result [] }
        ensures no_fault { result.fault ≡ None }
    {
        Feed {
            reader: LayoutReader::new(),
            tally: Tally {
                sandboxes: 0,
                bundles: 0,
                count: 0,
                first: None,
                owed: Owed::Nothing,
            },
            held: [0; ROOM],
            count: 0,
            fault: None,
        }
    }

    /// Keeps the bytes that are left of a piece, fewer than 28, in `held`, instead of those held
    /// before.
    fn hold(&mut self, bytes: &[u8])
        requires { length bytes.now < 28 }
        ensures reader { self.new.reader ≡ self.old.reader }
        ensures tally { self.new.tally ≡ self.old.tally }
        ensures fault { self.new.fault ≡ self.old.fault }
        ensures count { self.new.count ≡ length bytes.now }
        ensures long { length self.new.held ≡ length self.old.held }
        ensures held { take self.new.count self.new.held ≡ bytes.now }
    {
        self.held[..bytes.len()].copy_from_slice(bytes);
        self.count = bytes.len();
    }

    /// Takes `bytes`, which begin with the held bytes: hands them to the reader and the scan, as
    /// far as what comes next is whole, and holds what is left. After a fault it drops the rest.
    fn take_all<F: FindingSink, const BLOCKS: bool>(&mut self, bytes: &[u8], sink: &mut F)
        requires fault { self.old.fault ≡ None }
        requires long { length self.old.held ≡ 64 }
        requires reading { (first : F) × (so_far : List ℕ)
            × IsSoFar (λ found. F.takes first found sink.old) self.old.reader self.old.tally so_far }
        ensures fed { (first : F) (so_far : List ℕ)
            → IsSoFar (λ found. F.takes first found sink.old) self.old.reader self.old.tally so_far
            → IsFedFinding (λ found. F.takes first found sink.new) self.new (so_far ++ bytes.now) }
        ensures falls { self.old.count < length bytes.now
            → left_to_feed self.new < left_to_feed self.old }
    {
        let mut at = 0;
        loop {
            match feed_next::<F, BLOCKS>(&mut self.reader, &mut self.tally, sink, &bytes[at..]) {
                FeedEnd::Took(len) => at += len,
                FeedEnd::Short => return self.hold(&bytes[at..]),
                FeedEnd::Whole => {
                    self.count = 0;
                    if at < bytes.len() {
                        self.fault = Some(LayoutFault::Trailing);
                    }
                    return;
                }
                FeedEnd::Fault(fault) => {
                    self.fault = Some(fault);
                    return;
                }
            }
        }
    }

    /// How many bytes the field or bundle has that comes next, and begins with the held bytes;
    /// `ROOM` where neither comes next.
    fn wanted(&self) -> usize
        requires front { (x : ImagePrefix) × StandsFor self.now.reader x }
        requires cut { IsCut self.now.reader self.now.count }
        ensures more { self.now.count < result }
        ensures room { result ≤ 64 }
    {
        match self.reader.wants() {
            Want::Field(len) => len,
            Want::Bundle(_) => BUNDLE_BYTES,
            _ => ROOM,
        }
    }

    /// Takes the bytes that come next, any number of them. Bytes that were held are completed first, with
    /// as many of `bytes` as the field or bundle lacks; then all whole fields and bundles are taken, and
    /// their findings go to `sink`; the incomplete rest is held. After a fault nothing changes. `BLOCKS`
    /// says how code is scanned: `IN_BLOCKS` or `BUNDLE_BY_BUNDLE` of `sfi_scan`.
    pub(crate) fn feed_into<F: FindingSink, const BLOCKS: bool>(
        &mut self,
        bytes: &[u8],
        sink: &mut F,
    )
        requires { (first : F) × (before : List ℕ)
            × IsFedFinding (λ found. F.takes first found sink.old) self.old before }
        ensures fed { IsFedOn F.takes sink.old sink.new self.old self.new bytes.now }
        ensures falls { self.old.fault ≡ None → 0 < length bytes.now
            → left_to_feed self.new < left_to_feed self.old }
    {
        let mut at = 0;
        while at < bytes.len() {
            if self.fault.is_some() {
                return;
            }
            if self.count == 0 {
                return self.take_all::<F, BLOCKS>(&bytes[at..], sink);
            }
            // As many as make what comes next whole with the held bytes.
            let more = (bytes.len() - at).min(self.wanted() - self.count);
            let end = self.count + more;
            let mut joined = self.held;
            joined[self.count..end].copy_from_slice(&bytes[at..at + more]);
            self.take_all::<F, BLOCKS>(&joined[..end], sink);
            at += more;
        }
    }

    /// Takes the bytes that come next, any number of them. It scans bundle by bundle, which is less
    /// machine code, for devices.
    pub fn feed(&mut self, bytes: &[u8])
        requires { (before : List ℕ) × IsFed self.old before }
        ensures { (before : List ℕ) → IsFed self.old before
            → IsFed self.new (before ++ bytes.now) }
    {
        self.feed_into::<Nowhere, BUNDLE_BY_BUNDLE>(bytes, &mut Nowhere);
    }

    /// The verdict on exactly the bytes that were fed so far. It may be asked for at any time: before
    /// the image's last byte the answer is the fault that it is cut short, or a fault found before.
    pub fn answer(&self) -> StreamAnswer
        requires { (bytes : List ℕ) × IsFed self.now bytes }
        ensures judged { (bytes : List ℕ) → IsFed self.now bytes → IsVerdictOn bytes true result }
        ensures read { result ≢ StreamAnswer.ReadFault }
        ensures handed { (bytes : List ℕ) (found : List Finding)
            → IsFedFinding (λ all. all ≡ found) self.now bytes → AreHandedOver bytes found result }
    {
        if let Some(fault) = self.fault {
            return StreamAnswer::Layout(fault);
        }
        match self.reader.wants() {
            Want::End => verdict(&self.tally),
            _ => StreamAnswer::Layout(LayoutFault::Short),
        }
    }
}
