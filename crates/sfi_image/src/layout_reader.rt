//! Reading an image's layout piece by piece, without taking memory.
ghost use Rattle.std.specs.Prelude.{◌≡◌, ◌≢◌, ◌+◌, ◌-◌, ◌<◌, ◌≤◌, ◌↔◌, ◌*◌, ◌++◌, ◌∷◌, [], length, drop, ◌==◌, IfSome, IfNone, false};
ghost use Rattle.sfi_image.specs.declared.fault.LayoutFault.{LayoutFault};
ghost use Rattle.sfi_image.specs.Prefixes.{ImagePrefix, prefix_bytes, want_of, AreBundlesWithin, IsLengthOf, IsStretchLength, HasFaultWhateverFollows};
ghost use Rattle.sfi_image.specs.Prefixes.ImagePrefix.{Empty};
ghost use Rattle.sfi_image.specs.Keeping.{StandsFor, HasStopped, Leads, left};
ghost use Rattle.sfi_image.specs.private.{IsReader, MayTake, Takes, as_want, count_below, first_or, is_first, stage_after_part, stage_after_init, stage_after_code, stage_after_gates};

use crate::arrays::{GateArray, SpanArray};
use crate::bundle::BundlePlace;
use crate::fault::LayoutFault;
use crate::fields::{Fields, spans_after};
use crate::gates::is_next_gate;
use crate::reading::{
    FIELDS_BYTES, GATE_BYTES, MAGIC_BYTES, NUMBER_BYTES, fields_at, format_at, gate_at, number_at,
};
use crate::want::{OtherWant, Stage, Want};
use sfi_formats::{BUNDLE_SIZE, Format, SANDBOXES_MOST};

/// Reads an image's bytes in order, as they come, and keeps of them only what its tests need.
///
/// The fields are public so that a caller may keep them elsewhere between two pieces, as C does.
#[derive(Drop)]
pub struct LayoutReader {
    /// What comes next.
    pub next: Stage,
    /// How many sandboxes the image has.
    pub count: u32,
    /// How many of these sandboxes have had their fields read.
    pub begun: u32,
    /// The spans of the sandboxes whose fields were read: two for each.
    pub spans: SpanArray,
    /// The fields of the last sandbox; before the first, only the image's format in them.
    pub fields: Fields,
    /// The addresses of the last sandbox's gates that were read.
    pub gates: GateArray,
    /// How many of these gates lie before the next bundle.
    pub passed: usize,
    /// How many bytes of the last sandbox's code were read.
    pub code_read: u32,
    /// How many of the last sandbox's first data bytes were read.
    pub init_read: u32,
}

/// What comes next after `begun` whole sandboxes of `count`.
fn stage_after_part(begun: u32, count: u32) -> Stage
    ensures { result ≡ stage_after_part begun count }
{
    if begun == count {
        Stage::End
    } else {
        Stage::Fields
    }
}

/// What comes next after `read` first data bytes of `len`, in sandbox `begun` of `count`, counted
/// from 1. It is out of line, since few bundles are the last of their code region.
#[inline(never)]
fn stage_after_init(read: u32, len: u32, begun: u32, count: u32) -> Stage
    ensures { result ≡ stage_after_init read len begun count }
{
    if read == len {
        stage_after_part(begun, count)
    } else {
        Stage::Init
    }
}

/// What comes next after `read` bytes of a code region of `size`, in sandbox `begun` of `count`,
/// which has `len` first data bytes.
#[inline]
fn stage_after_code(read: u32, size: u32, len: u32, begun: u32, count: u32) -> Stage
    ensures { result ≡ stage_after_code read size len begun count }
{
    if read == size {
        stage_after_init(0, len, begun, count)
    } else {
        Stage::Code
    }
}

/// What comes next after `read` gates of `gate_count`.
fn stage_after_gates(read: u32, gate_count: u32) -> Stage
    ensures { result ≡ stage_after_gates read gate_count }
{
    if read == gate_count {
        Stage::Code
    } else {
        Stage::Gate
    }
}

/// Whether the address after the first `passed` ones is `address`.
#[inline]
fn is_first_after(addresses: &[u32], passed: usize, address: u32) -> bool
    ensures { result ≡ is_first (drop passed addresses.now) address }
{
    match addresses.get(passed) {
        Some(first) => *first == address,
        None => false,
    }
}

/// How many of the addresses, which ascend, lie before `end`; the first `passed` are known to.
#[inline]
fn passed_before(addresses: &[u32], passed: usize, end: u64) -> usize
    ensures { result ≡ passed + count_below end (drop passed addresses.now) }
{
    let mut count = passed;
    while count < addresses.len() && u64::from(addresses[count]) < end {
        count += 1;
    }
    count
}

/// The address after `read` bytes of the code region at `base`.
#[inline]
fn address_after(base: u32, read: u32) -> u64
    ensures { result ≡ base + read }
{
    u64::from(base) + u64::from(read)
}

/// The address after the first `passed` ones, or `other` where there is none.
#[inline]
fn first_after(addresses: &[u32], passed: usize, other: u64) -> u64
    ensures { result ≡ first_or other (drop passed addresses.now) }
{
    match addresses.get(passed) {
        Some(first) => u64::from(*first),
        None => other,
    }
}

impl LayoutReader {
    /// A reader that has read nothing.
    pub fn new() -> Self
        ensures { StandsFor result Empty }
    {
        LayoutReader {
            next: Stage::Magic,
            count: 0,
            begun: 0,
            spans: SpanArray::new(),
            fields: Fields {
                format: Format::Sfi1,
                code_base: 0,
                code_size: 0,
                data_base: 0,
                data_size: 0,
                start: 0,
                gate_count: 0,
                init_len: 0,
            },
            gates: GateArray::new(),
            passed: 0,
            code_read: 0,
            init_read: 0,
        }
    }

    /// The image's format, after its magic.
    pub(crate) fn format(&self) -> Format
        ensures { result ≡ self.now.fields.format }
    {
        self.fields.format
    }

    /// What comes next, which `take` takes: the caller is to read that many bytes, or to stop.
    #[inline]
    pub fn wants(&self) -> Want
        ensures want { (x : ImagePrefix) → StandsFor self.now x → result ≡ want_of x }
        ensures stopped { HasStopped self.now → result ≡ Want.Nothing }
    {
        if let Stage::Code = self.next {
            let address = self.fields.code_base.wrapping_add(self.code_read);
            Want::Bundle(BundlePlace {
                sandbox: self.begun.saturating_sub(1),
                address,
                format: self.fields.format,
                code_base: self.fields.code_base,
                code_size: self.fields.code_size,
                listed: is_first_after(self.gates.as_slice(), self.passed, address),
            })
        } else {
            match self.wants_no_bundle() {
                OtherWant::Field(len) => Want::Field(len),
                OtherWant::Init(most) => Want::Init(most),
                OtherWant::End => Want::End,
                OtherWant::Nothing => Want::Nothing,
            }
        }
    }

    /// What comes next where no bundle does. It is out of line, since most that is read is bundles.
    #[inline(never)]
    fn wants_no_bundle(&self) -> OtherWant
        requires { self.now.next ≢ Stage.Code }
        ensures want { (x : ImagePrefix) → StandsFor self.now x → as_want result ≡ want_of x }
        ensures stopped { HasStopped self.now → result ≡ OtherWant.Nothing }
    {
        match self.next {
            Stage::Magic => OtherWant::Field(MAGIC_BYTES),
            Stage::Count => OtherWant::Field(NUMBER_BYTES),
            Stage::Fields => OtherWant::Field(FIELDS_BYTES),
            Stage::Gate => OtherWant::Field(GATE_BYTES),
            Stage::Code => unreachable!(),
            Stage::Init => OtherWant::Init(
                self.fields.init_len.saturating_sub(self.init_read) as usize,
            ),
            Stage::End => OtherWant::End,
            Stage::Nothing => OtherWant::Nothing,
        }
    }

    /// How many bytes of code come next up to the first gate after their first bundle, or else to
    /// the code region's end: 0 where no code comes next. So many can be checked at once: of their
    /// bundles only the first may be a gate's.
    #[inline(never)]
    pub fn stretch_length(&self) -> usize
        ensures length { (x : ImagePrefix) → StandsFor self.now x → IsStretchLength x result }
        ensures stopped { HasStopped self.now → result ≡ 0 }
    {
        let Stage::Code = self.next else {
            return 0;
        };
        let fields = &self.fields;
        let at = address_after(fields.code_base, self.code_read);
        let region_end = address_after(fields.code_base, fields.code_size);
        let gates = self.gates.as_slice();
        let passed = passed_before(gates, self.passed, at + u64::from(BUNDLE_SIZE));
        let end = first_after(gates, passed, region_end);
        end.saturating_sub(at).min(u64::from(u32::MAX)) as u32 as usize
    }

    /// Takes the bytes that come next, as many as are wanted, or any whole number of bundles of the
    /// code region. The answer is the first test that fails, if one does; then nothing is wanted any more.
    #[inline]
    pub fn take(&mut self, bytes: &[u8]) -> Option<LayoutFault>
        requires { (x : ImagePrefix) × StandsFor self.old x × IsLengthOf (length bytes.now) (want_of x) }
        ensures goes_on { IfNone result
            ((x : ImagePrefix) → StandsFor self.old x → Leads x bytes.now self.new) }
        ensures fault { IfSome result (λ k.
            (x : ImagePrefix) → StandsFor self.old x
            → HasFaultWhateverFollows (prefix_bytes x ++ bytes.now) k) }
        ensures stopped { IfSome result (λ k. HasStopped self.new) }
        ensures falls { left self.new < left self.old }
        ensures code { self.old.next ≡ Stage.Code →
            left self.new + length bytes.now ≤ left self.old }
    {
        self.advance(bytes)
    }

    /// Takes bytes as `take` does, if their length may be taken in this state.
    #[inline]
    pub(crate) fn advance(&mut self, bytes: &[u8]) -> Option<LayoutFault>
        requires { MayTake self.old (length bytes.now) }
        ensures takes { Takes self.old bytes.now self.new result }
        ensures falls { left self.new < left self.old }
        ensures code { self.old.next ≡ Stage.Code →
            left self.new + length bytes.now ≤ left self.old }
    {
        if let Stage::Code = self.next {
            self.take_code(bytes);
            None
        } else {
            self.advance_by_no_bundle(bytes)
        }
    }

    /// Takes bytes as `advance` does, where no bundle comes next. It is out of line, since most
    /// that is read is bundles.
    #[inline(never)]
    fn advance_by_no_bundle(&mut self, bytes: &[u8]) -> Option<LayoutFault>
        requires next { self.old.next ≢ Stage.Code }
        requires may { MayTake self.old (length bytes.now) }
        ensures takes { Takes self.old bytes.now self.new result }
        ensures falls { left self.new < left self.old }
    {
        match self.next {
            Stage::Magic => self.take_magic(bytes),
            Stage::Count => self.take_count(bytes),
            Stage::Fields => self.take_fields(bytes),
            Stage::Gate => self.take_gate(bytes),
            Stage::Init => {
                self.take_init(bytes);
                None
            }
            Stage::Code | Stage::End | Stage::Nothing => unreachable!(),
        }
    }

    /// Takes the magic, the four bytes of the format. The answer is its fault, if no format has it.
    #[inline(never)]
    fn take_magic(&mut self, bytes: &[u8]) -> Option<LayoutFault>
        requires reader { IsReader self.old }
        requires next { self.old.next ≡ Stage.Magic }
        requires len { length bytes.now ≡ MAGIC_BYTES }
        ensures takes { Takes self.old bytes.now self.new result }
        ensures falls { left self.new < left self.old }
    {
        let Some(format) = format_at(bytes) else {
            self.next = Stage::Nothing;
            return Some(LayoutFault::Magic);
        };
        self.next = Stage::Count;
        self.fields.format = format;
        None
    }

    /// Takes the number of sandboxes. The answer is its fault, if that is 0 or too large.
    #[inline(never)]
    fn take_count(&mut self, bytes: &[u8]) -> Option<LayoutFault>
        requires reader { IsReader self.old }
        requires next { self.old.next ≡ Stage.Count }
        requires len { length bytes.now ≡ NUMBER_BYTES }
        ensures takes { Takes self.old bytes.now self.new result }
        ensures falls { left self.new < left self.old }
    {
        let (count, _) = number_at(bytes);
        if count < 1 || count > SANDBOXES_MOST {
            self.next = Stage::Nothing;
            return Some(LayoutFault::Count);
        }
        self.next = Stage::Fields;
        self.count = count;
        self.begun = 0;
        None
    }

    /// Takes a sandbox's seven fields. The answer is the first fault that their tests find, if any.
    #[inline(never)]
    fn take_fields(&mut self, bytes: &[u8]) -> Option<LayoutFault>
        requires reader { IsReader self.old }
        requires next { self.old.next ≡ Stage.Fields }
        requires len { length bytes.now ≡ FIELDS_BYTES }
        ensures takes { Takes self.old bytes.now self.new result }
        ensures falls { left self.new < left self.old }
    {
        let (fields, _) = fields_at(self.fields.format, bytes);
        let own = match spans_after(self.spans.as_slice(), &fields) {
            Ok(own) => own,
            Err(fault) => {
                self.next = Stage::Nothing;
                return Some(fault);
            }
        };
        self.spans.push(own.code);
        self.spans.push(own.guarded);
        self.begun += 1;
        self.gates.clear();
        self.passed = 0;
        self.code_read = 0;
        self.init_read = 0;
        self.next = stage_after_gates(0, fields.gate_count);
        self.fields = fields;
        None
    }

    /// Takes a gate. The answer is its fault, if it may not follow the gates before it.
    #[inline(never)]
    fn take_gate(&mut self, bytes: &[u8]) -> Option<LayoutFault>
        requires reader { IsReader self.old }
        requires next { self.old.next ≡ Stage.Gate }
        requires len { length bytes.now ≡ GATE_BYTES }
        ensures takes { Takes self.old bytes.now self.new result }
        ensures falls { left self.new < left self.old }
    {
        let (gate, _) = gate_at(bytes);
        let last = self.gates.as_slice().last().copied();
        if !is_next_gate(&self.fields, last, gate) {
            self.next = Stage::Nothing;
            return Some(LayoutFault::Gates);
        }
        self.gates.push(gate.address);
        self.next = stage_after_gates(self.gates.len() as u32, self.fields.gate_count);
        None
    }

    /// Takes whole bundles of a sandbox's code. It is out of line, since one call takes many.
    #[inline(never)]
    fn take_code(&mut self, code: &[u8])
        requires reader { IsReader self.old }
        requires next { self.old.next ≡ Stage.Code }
        requires len { AreBundlesWithin (self.old.fields.code_size - self.old.code_read) (length code.now) }
        ensures takes { Takes self.old code.now self.new None }
        ensures falls { left self.new + length code.now ≤ left self.old }
    {
        let read = self.code_read + code.len() as u32;
        let end = address_after(self.fields.code_base, read);
        self.passed = passed_before(self.gates.as_slice(), self.passed, end);
        self.code_read = read;
        self.next = stage_after_code(
            read,
            self.fields.code_size,
            self.fields.init_len,
            self.begun,
            self.count,
        );
    }

    /// Takes some of a sandbox's first data bytes.
    #[inline(never)]
    fn take_init(&mut self, bytes: &[u8])
        requires reader { IsReader self.old }
        requires next { self.old.next ≡ Stage.Init }
        requires len { 1 ≤ length bytes.now }
        requires room { length bytes.now + self.old.init_read ≤ self.old.fields.init_len }
        ensures takes { Takes self.old bytes.now self.new None }
        ensures falls { left self.new < left self.old }
    {
        let read = self.init_read as usize + bytes.len();
        self.init_read = read as u32;
        self.next = stage_after_init(self.init_read, self.fields.init_len, self.begun, self.count);
    }
}
