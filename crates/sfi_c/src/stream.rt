//! What C keeps of an image that comes in pieces.
ghost use Rattle.std.specs.Prelude.{◌≡◌};
ghost use Rattle.sfi_c.specs.Streams.{fields_of, reader_of, tally_of, feed_of};

use crate::numbers::{
    fault_number, fault_numbered, first_finding_for_c, first_finding_from_c, owed_number,
    owed_numbered, stage_number, stage_numbered,
};
use sfi_check::{Feed, SfiFinding, Tally};
use sfi_formats::Format;
use sfi_image::{Fields, GateArray, LayoutReader, Span, SpanArray};
use std::mem::size_of;

/// What is known of the bytes of an image so far, a [`Feed`] as plain numbers: `struct sfi_stream`,
/// in which C sees no field. Of each array as many elements count, from its front on, as its count
/// says. A new field goes into [`feed_of`], [`kept`] and specs/Streams; the header has the size.
#[repr(C)]
#[derive(Clone, Copy)]
pub struct SfiStream {
    /// The spans of the sandboxes so far, which may not overlap: two for each, its code region and
    /// its data region with guard zones.
    pub spans: [Span; 32],
    /// How many spans there are.
    pub span_count: u64,
    /// How many gates of the last sandbox were read.
    pub gate_count: u64,
    /// How many of these gates lie before the next bundle.
    pub passed: u64,
    /// How many bytes of `held` are held.
    pub held_count: u64,
    /// The addresses of the gates.
    pub gates: [u32; 64],
    /// The bytes that are held until what comes next is whole.
    pub held: [u8; 64],
    /// What comes next, by `stage_number`.
    pub next: u32,
    /// How many sandboxes the image has.
    pub count: u32,
    /// How many of these sandboxes have had their fields read.
    pub begun: u32,
    /// The image's format, 1 to 4, by `format_number`.
    pub format: u32,
    /// The first address of the last sandbox's code region.
    pub code_base: u32,
    /// The size of that code region in bytes.
    pub code_size: u32,
    /// The first address of that sandbox's data region.
    pub data_base: u32,
    /// The size of that data region in bytes.
    pub data_size: u32,
    /// The address at which that sandbox starts.
    pub start: u32,
    /// How many gates that sandbox lists.
    pub gates_listed: u32,
    /// How many first data bytes that sandbox has.
    pub init_len: u32,
    /// How many bytes of that sandbox's code were read.
    pub code_read: u32,
    /// How many of that sandbox's first data bytes were read.
    pub init_read: u32,
    /// How many sandboxes have a bundle that was scanned.
    pub sandboxes: u32,
    /// How many bundles were scanned.
    pub bundles: u32,
    /// How many findings these bundles have.
    pub findings: u32,
    /// The first of these findings, or three zeros.
    pub first: SfiFinding,
    /// What is owed before the code that comes next, by `owed_number`.
    pub owed: u32,
    /// The number of the layout's fault, 1 to 11, or 0 if none was met.
    pub fault: u32,
}

// The header says so, too.
const _: () = prove!(size_of::<SfiStream>() == 952);

/// The fields of the last sandbox, which the stream keeps.
fn fields_of(stream: &SfiStream) -> Fields
    ensures { result ≡ fields_of stream.now }
{
    Fields {
        format: Format::numbered(stream.format),
        code_base: stream.code_base,
        code_size: stream.code_size,
        data_base: stream.data_base,
        data_size: stream.data_size,
        start: stream.start,
        gate_count: stream.gates_listed,
        init_len: stream.init_len,
    }
}

/// The layout reader that the stream keeps.
fn reader_of(stream: &SfiStream) -> LayoutReader
    ensures { result ≡ reader_of stream.now }
{
    LayoutReader {
        next: stage_numbered(stream.next),
        count: stream.count,
        begun: stream.begun,
        spans: SpanArray::from_array(stream.spans, stream.span_count as usize),
        fields: fields_of(stream),
        gates: GateArray::from_array(stream.gates, stream.gate_count as usize),
        passed: stream.passed as usize,
        code_read: stream.code_read,
        init_read: stream.init_read,
    }
}

/// The numbers of findings and bundles that the stream keeps.
fn tally_of(stream: &SfiStream) -> Tally
    ensures { result ≡ tally_of stream.now }
{
    Tally {
        sandboxes: stream.sandboxes,
        bundles: stream.bundles,
        count: stream.findings,
        first: first_finding_from_c(stream.first),
        owed: owed_numbered(stream.owed),
    }
}

/// The feed that a stream of C's keeps, to which the next bytes are fed.
pub(crate) fn feed_of(stream: &SfiStream) -> Feed
    ensures { result ≡ feed_of stream.now }
{
    Feed {
        reader: reader_of(stream),
        tally: tally_of(stream),
        held: stream.held,
        count: stream.held_count as usize,
        fault: fault_numbered(stream.fault),
    }
}

/// The feed as a stream for C to keep: [`feed_of`] gives the feed again.
pub(crate) fn kept(feed: &Feed) -> SfiStream
    ensures { feed_of result ≡ feed.now }
{
    let reader = &feed.reader;
    let fields = &reader.fields;
    SfiStream {
        spans: reader.spans.array(),
        span_count: reader.spans.len() as u64,
        gate_count: reader.gates.len() as u64,
        passed: reader.passed as u64,
        held_count: feed.count as u64,
        gates: reader.gates.array(),
        held: feed.held,
        next: stage_number(reader.next),
        count: reader.count,
        begun: reader.begun,
        format: fields.format.number(),
        code_base: fields.code_base,
        code_size: fields.code_size,
        data_base: fields.data_base,
        data_size: fields.data_size,
        start: fields.start,
        gates_listed: fields.gate_count,
        init_len: fields.init_len,
        code_read: reader.code_read,
        init_read: reader.init_read,
        sandboxes: feed.tally.sandboxes,
        bundles: feed.tally.bundles,
        findings: feed.tally.count,
        first: first_finding_for_c(feed.tally.first),
        owed: owed_number(feed.tally.owed),
        fault: fault_number(feed.fault),
    }
}
