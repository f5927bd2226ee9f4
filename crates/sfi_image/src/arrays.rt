//! Lists of bounded length, in arrays, so that a reader of a layout takes no memory. Callers in C
//! keep the arrays and their lengths: `from_array` and `array` are for these.
ghost use Rattle.std.specs.Prelude.{◌≡◌, ◌<◌, ◌≤◌, ◌++◌, ◌∷◌, ◌*◌, [], List, ℕ, length, take};
ghost use Rattle.sfi_formats.specs.Limits.{gates_most, sandboxes_most};
ghost use Rattle.sfi_image.specs.declared.span.Span.{Span};

use crate::span::Span;
use sfi_formats::{GATE_COUNT_MOST, SANDBOX_COUNT_MOST};
use std::marker::Model;

/// How many spans are kept at most: two for each of as many sandboxes as an image may have.
pub(crate) const SPANS_MOST: usize = 2 * SANDBOX_COUNT_MOST;

/// Spans, two for each of as many sandboxes as an image may have. Contracts see them as a list.
#[derive(Drop)]
pub struct SpanArray {
    spans: [Span; SPANS_MOST],
    count: usize,
}

impl Model for SpanArray {
    ghost Value = { List Span };

    ghost view = { λ a. take a.count a.spans };

    ghost invariant = { λ a. (a.count ≤ 2 * sandboxes_most)
        × (length a.spans ≡ 2 * sandboxes_most) };
}

impl SpanArray {
    /// No spans.
    pub(crate) fn new() -> Self
        ensures { result ≡ [] }
    {
        SpanArray {
            spans: [Span { base: 0, size: 1 }; SPANS_MOST],
            count: 0,
        }
    }

    /// The first `count` elements of the array, or all if it has fewer.
    pub fn from_array(spans: [Span; SPANS_MOST], count: usize) -> Self
        ensures { result ≡ take count spans }
    {
        SpanArray {
            spans,
            count: count.min(SPANS_MOST),
        }
    }

    /// An array with the spans at its front; what follows them means nothing.
    pub fn array(&self) -> [Span; SPANS_MOST]
        ensures { take (length self.now) result ≡ self.now }
    {
        self.spans
    }

    /// How many there are.
    pub fn len(&self) -> usize
        ensures { result ≡ length self.now }
    {
        self.count
    }

    /// The spans, as a slice.
    pub(crate) fn as_slice(&self) -> &[Span]
        ensures { result.now ≡ self.now }
    {
        &self.spans[..self.count]
    }

    /// Appends a span.
    pub(crate) fn push(&mut self, span: Span)
        requires { length self.old < 2 * sandboxes_most }
        ensures { self.new ≡ self.old ++ span ∷ [] }
    {
        self.spans[self.count] = span;
        self.count += 1;
    }
}

/// The addresses of as many gates as a sandbox may have. Contracts see them as a list.
#[derive(Drop)]
pub struct GateArray {
    addresses: [u32; GATE_COUNT_MOST],
    count: usize,
}

impl Model for GateArray {
    ghost Value = { List ℕ };

    ghost view = { λ a. take a.count a.addresses };

    ghost invariant = { λ a. (a.count ≤ gates_most) × (length a.addresses ≡ gates_most) };
}

impl GateArray {
    /// No gates.
    pub(crate) fn new() -> Self
        ensures { result ≡ [] }
    {
        GateArray {
            addresses: [0; GATE_COUNT_MOST],
            count: 0,
        }
    }

    /// The first `count` elements of the array, or all if it has fewer.
    pub fn from_array(addresses: [u32; GATE_COUNT_MOST], count: usize) -> Self
        ensures { result ≡ take count addresses }
    {
        GateArray {
            addresses,
            count: count.min(GATE_COUNT_MOST),
        }
    }

    /// An array with the gates' addresses at its front; what follows them means nothing.
    pub fn array(&self) -> [u32; GATE_COUNT_MOST]
        ensures { take (length self.now) result ≡ self.now }
    {
        self.addresses
    }

    /// The gates' addresses, as a slice.
    pub(crate) fn as_slice(&self) -> &[u32]
        ensures { result.now ≡ self.now }
    {
        &self.addresses[..self.count]
    }

    /// How many there are, at most 64.
    pub fn len(&self) -> usize
        ensures value { result ≡ length self.now }
        ensures few { result ≤ gates_most }
    {
        self.count
    }

    /// Drops all gates.
    pub(crate) fn clear(&mut self)
        ensures { self.new ≡ [] }
    {
        self.count = 0;
    }

    /// Appends a gate's address.
    pub(crate) fn push(&mut self, address: u32)
        requires { length self.old < gates_most }
        ensures { self.new ≡ self.old ++ address ∷ [] }
    {
        self.addresses[self.count] = address;
        self.count += 1;
    }
}
