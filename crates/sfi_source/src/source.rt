//! Sources: what a text of the assembler means.
ghost use Rattle.std.specs.Prelude.{◌≡◌};
ghost use Rattle.sfi_source.specs.Source.{sandbox, format_of, IsSource};

use crate::item::{Item, SourceGate};
use crate::names::Names;
use sfi_formats::Format;
use std::marker::Model;

/// A sandbox of a source.
#[derive(Drop)]
pub struct SourcePart {
    format: Format,
    movable: bool,
    data_size: u32,
    gates: Vec<SourceGate>,
    names: Names,
    items: Vec<Item>,
    bytes: Vec<u8>,
}

impl Model for SourcePart {
    ghost use Rattle.sfi_source.specs.Source.{Sandbox, sandbox};

    ghost Value = { Sandbox };

    ghost view = { λ p. sandbox p.format p.movable p.data_size p.gates.items p.names
        p.items.items p.bytes.items };
}

impl SourcePart {
    /// A sandbox of these parts, which the methods below describe. [`Source::new`] asks that they
    /// fit each other.
    pub fn new(
        format: Format,
        movable: bool,
        data_size: u32,
        gates: Vec<SourceGate>,
        names: Names,
        items: Vec<Item>,
        bytes: Vec<u8>,
    ) -> SourcePart
        ensures { result ≡ sandbox format movable data_size gates.items names items.items
            bytes.items }
    {
        SourcePart {
            format,
            movable,
            data_size,
            gates,
            names,
            items,
            bytes,
        }
    }

    /// The format of its source.
    pub fn format(&self) -> Format
        ensures { result ≡ self.now.format }
    {
        self.format
    }

    /// Whether it is built to be moved: `Body::High` and `Body::Low` then hold how far an address is from
    /// its region's base, and a `Body::Base` after them, which a text's reader writes, adds the base. Numbers
    /// that the source itself has are not looked at: some may be addresses.
    pub fn is_movable(&self) -> bool
        ensures { result ≡ self.now.movable }
    {
        self.movable
    }

    /// How many bytes the data region has, a power of two from `REGION_LEAST` to
    /// `SOURCE_DATA_MOST` of `sfi_formats`.
    pub fn data_size(&self) -> u32
        ensures { result ≡ self.now.data_size }
    {
        self.data_size
    }

    /// The gates, at most `GATES_MOST` of `sfi_formats`, in the order of the text.
    pub fn gates(&self) -> &[SourceGate]
        ensures { result.now ≡ self.now.gates }
    {
        &self.gates
    }

    /// The names of its labels and gates, and of what its instructions go to.
    pub fn names(&self) -> &Names
        ensures { result.now ≡ self.now.names }
    {
        &self.names
    }

    /// The instructions, at most `ITEMS_MOST` of `sfi_formats`, in the order of the text.
    pub fn items(&self) -> &[Item]
        ensures { result.now ≡ self.now.items }
    {
        &self.items
    }

    /// The first bytes of the data region, at most `data_size`. The others are 0.
    pub fn bytes(&self) -> &[u8]
        ensures { result.now ≡ self.now.bytes }
    {
        &self.bytes
    }
}

/// What a text means: one sandbox at least, and no more than a u32 can number, all of one format.
#[derive(Drop)]
pub struct Source {
    parts: Vec<SourcePart>,
}

impl Model for Source {
    ghost use Rattle.std.specs.Prelude.{List};
    ghost use Rattle.sfi_source.specs.Source.{Sandbox, IsSource};

    ghost Value = { List Sandbox };

    ghost view = { λ s. s.parts.items };

    ghost invariant = { λ s. IsSource s.parts.items };
}

impl Source {
    /// The source of these sandboxes, which have to be right, each by itself, and all of one
    /// format: `IsSource` of specs/Source says what that takes.
    pub fn new(parts: Vec<SourcePart>) -> Source
        requires { IsSource parts.items }
        ensures { result ≡ parts.items }
    {
        Source { parts }
    }

    /// The format of the image to be made, which is that of each sandbox.
    pub fn format(&self) -> Format
        ensures { result ≡ format_of self.now }
    {
        match self.parts.first() {
            Some(part) => part.format(),
            None => Format::Sfi1,
        }
    }

    /// The sandboxes, in the order of the text.
    pub fn parts(&self) -> &[SourcePart]
        ensures parts { result.now ≡ self.now }
        ensures right { IsSource self.now }
    {
        &self.parts
    }
}
