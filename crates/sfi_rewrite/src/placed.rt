//! What is placed: the sandboxes of a source, with their code in bundles and names for addresses.
ghost use Rattle.std.specs.Prelude.{◌≡◌};
ghost use Rattle.sfi_rewrite.specs.Placed.{format_of, IsPlaced};

use crate::bundle::Bundle;
use sfi_formats::Format;
use sfi_source::SourceGate;
use std::marker::Model;

/// What a name of a sandbox names, once its code is placed.
#[derive(Clone, Copy)]
pub enum PlacedName {
    /// A gate, by its number, counted from 0.
    Gate(usize),
    /// A place in the code, in bytes after the gates' stubs.
    Code(u32),
    /// A place in the data, in bytes after the data base.
    Data(u32),
    /// Nothing: the text never says what it names.
    Unknown,
}

/// A sandbox whose code is placed.
#[derive(Drop)]
pub struct PlacedPart {
    format: Format,
    movable: bool,
    data_size: u32,
    gates: Vec<SourceGate>,
    names: Vec<PlacedName>,
    bytes: Vec<u8>,
    bundles: Vec<Bundle>,
}

impl Model for PlacedPart {
    ghost use Rattle.sfi_rewrite.specs.Placement.{Placement};

    ghost Value = { Placement };

    ghost view = { λ p. record {
      format = p.format;
      movable = p.movable;
      data_size = p.data_size;
      gates = p.gates.items;
      names = p.names.items;
      bytes = p.bytes.items;
      bundles = p.bundles.items;
    } };
}

impl PlacedPart {
    /// The sandbox with these parts.
    pub(crate) fn new(
        format: Format,
        movable: bool,
        data_size: u32,
        gates: Vec<SourceGate>,
        names: Vec<PlacedName>,
        bytes: Vec<u8>,
        bundles: Vec<Bundle>,
    ) -> PlacedPart
        ensures format { result.format ≡ format }
        ensures movable { result.movable ≡ movable }
        ensures data_size { result.data_size ≡ data_size }
        ensures gates { result.gates ≡ gates.items }
        ensures names { result.names ≡ names.items }
        ensures bytes { result.bytes ≡ bytes.items }
        ensures bundles { result.bundles ≡ bundles.items }
    {
        PlacedPart {
            format,
            movable,
            data_size,
            gates,
            names,
            bytes,
            bundles,
        }
    }

    /// The format of its source.
    pub fn format(&self) -> Format
        ensures { result ≡ self.now.format }
    {
        self.format
    }

    /// Whether its source says `.movable`.
    pub fn is_movable(&self) -> bool
        ensures { result ≡ self.now.movable }
    {
        self.movable
    }

    /// How many bytes the data region has, a power of two from `REGION_LEAST` to
    /// `SOURCE_DATA_MOST` of `sfi_formats`.
    pub fn data_size(&self) -> u32
        ensures { result ≡ self.now.data_size }
    {
        self.data_size
    }

    /// The gates, at most `GATES_MOST`, in the order of their stubs.
    pub fn gates(&self) -> &[SourceGate]
        ensures { result.now ≡ self.now.gates }
    {
        &self.gates
    }

    /// What the names name, in the order of the source's names: the `name` of a
    /// [`BundleSlot`](crate::BundleSlot) or of a gate is an index of this list.
    pub fn names(&self) -> &[PlacedName]
        ensures { result.now ≡ self.now.names }
    {
        &self.names
    }

    /// The first bytes of the data region, at most `data_size`.
    pub fn bytes(&self) -> &[u8]
        ensures { result.now ≡ self.now.bytes }
    {
        &self.bytes
    }

    /// The bundles that stand after the gates' stubs, at most as many as a code region of the
    /// format has. Each is full, but for the last, which may have fewer bytes.
    pub fn bundles(&self) -> &[Bundle]
        ensures { result.now ≡ self.now.bundles }
    {
        &self.bundles
    }
}

/// A source whose code is placed: one sandbox at least, all of one format.
/// Contracts see the list of their placements.
#[derive(Drop)]
pub struct Placed {
    parts: Vec<PlacedPart>,
}

impl Model for Placed {
    ghost use Rattle.std.specs.Prelude.{List};
    ghost use Rattle.sfi_rewrite.specs.Placement.{Placement};
    ghost use Rattle.sfi_rewrite.specs.Placed.{IsPlaced};

    ghost Value = { List Placement };

    ghost view = { λ p. p.parts.items };

    ghost invariant = { λ p. IsPlaced p.parts.items };
}

impl Placed {
    /// The sandboxes of a source, all placed.
    pub(crate) fn new(parts: Vec<PlacedPart>) -> Placed
        requires { IsPlaced parts.items }
        ensures { result ≡ parts.items }
    {
        Placed { parts }
    }

    /// The format of the image to be made, which all sandboxes have. There is always one.
    pub fn format(&self) -> Format
        ensures { result ≡ format_of self.now }
    {
        match self.parts.first() {
            Some(part) => part.format(),
            None => Format::Sfi1,
        }
    }

    /// The sandboxes, in the order of the text.
    pub fn parts(&self) -> &[PlacedPart]
        ensures parts { result.now ≡ self.now }
        ensures right { IsPlaced self.now }
    {
        &self.parts
    }
}
