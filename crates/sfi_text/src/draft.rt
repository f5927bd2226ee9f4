//! The sandbox begun last, by a `.sandbox` line, as far as the lines after it were read.
ghost use Rattle.std.specs.Prelude.{◌≡◌, ◌≤◌, ◌+◌, ◌<◌, ◌⊎◌, ◌∷◌, [], length, replicate, IfOk, IfErr, OnOk, IsTrue, ◌↔◌, true};
ghost use Rattle.sfi_formats.specs.Limits.{gates_most, items_most};
ghost use Rattle.sfi_text.specs.declared.cause.TextCause.TheVariants as cause;
ghost use Rattle.sfi_source.specs.declared.item.Body.TheVariants.{Plain, To, High, Low, Base};
ghost use Rattle.sfi_text.specs.SoFar.{IsFree, Fits, with_stated, address_bodies, address_count};
ghost use Rattle.sfi_source.specs.Names.{place_of, met};
ghost use Rattle.sfi_text.specs.private.Lines.{AddsUpTo};
ghost use Rattle.sfi_text.specs.private.Lines.{stated_within};
ghost use Rattle.sfi_text.specs.SoFar.{begin, here, with_names, with_label, with_gate, with_export, with_import, with_bodies, with_bytes};

use crate::cause::TextCause;
use crate::source_text::{Listed, SharedNames};
use crate::statement::SandboxStatement;
use rv_word::Reg;
use sfi_formats::{Format, GATE_COUNT_MOST, ITEM_COUNT_MOST};
use sfi_source::{Body, Item, Named, Names, SourceGate, SourcePart};
use std::alloc::Global;
use std::marker::Model;

/// The sandbox begun last, and what the lines so far mean for those to come.
#[derive(Drop)]
pub struct Draft {
    format: Format,
    movable: bool,
    data_size: u32,
    gates: Vec<SourceGate>,
    names: Names,
    items: Vec<Item>,
    bytes: Vec<u8>,
    exports: Vec<Listed>,
    imports: Vec<Listed>,
    /// Whether its `.data` line was read.
    in_data: bool,
    /// Whether the instructions to come may get 16-bit forms.
    rvc: bool,
    /// Whether a label stands before the next instruction.
    labelled: bool,
    /// Whether it has a label or an instruction.
    opened: bool,
}

impl Model for Draft {
    ghost use Rattle.std.specs.Prelude.{◌≤◌, ◌<◌, ◌^◌, length};
    ghost use Rattle.sfi_source.specs.Source.{sandbox};
    ghost use Rattle.sfi_text.specs.SoFar.{Begun};

    ghost Value = { Begun };

    ghost view = { λ b. record {
      sandbox = sandbox b.format b.movable b.data_size b.gates.items b.names b.items.items
          b.bytes.items;
      shared = record { exports = b.exports.items; imports = b.imports.items };
      in_data = b.in_data;
      rvc = b.rvc;
      labelled = b.labelled;
      opened = b.opened;
    } };

    ghost invariant = { λ b. (length b.bytes.items ≤ b.data_size) × (b.data_size < 2 ^ 32) };
}

impl Draft {
    /// A sandbox of this format with `data_size` bytes of data, and nothing else.
    pub(crate) fn new(alloc: Global, format: Format, data_size: u32) -> Draft
        ensures { result ≡ begin format data_size }
    {
        Draft {
            format,
            movable: false,
            data_size,
            gates: Vec::new(alloc),
            names: Names::new(alloc),
            items: Vec::new(alloc),
            bytes: Vec::new(alloc),
            exports: Vec::new(alloc),
            imports: Vec::new(alloc),
            in_data: false,
            rvc: false,
            labelled: false,
            opened: false,
        }
    }

    /// Whether its code part has ended: its `.data` line was read.
    pub(crate) fn is_in_data(&self) -> bool
        ensures { result ≡ self.now.in_data }
    {
        self.in_data
    }

    /// Whether it has a label or an instruction, after which no gate may come.
    pub(crate) fn is_opened(&self) -> bool
        ensures { result ≡ self.now.opened }
    {
        self.opened
    }

    /// Whether a label or a gate may have this name.
    pub(crate) fn is_free(&self, name: &str) -> bool
        ensures { IsTrue result ↔ IsFree name.now self.now }
    {
        match self.names.meaning(name) {
            Named::Unknown => true,
            Named::Gate(_) | Named::Code(_) | Named::Data(_) => false,
        }
    }

    /// What a label at this point of the text names: the next byte of the data, or the next
    /// instruction.
    fn here(&self) -> Named
        ensures { result ≡ here self.now }
    {
        if self.in_data {
            Named::Data(self.bytes.len() as u32)
        } else {
            Named::Code(self.items.len())
        }
    }

    /// Places a label here. No other label or gate has its name.
    pub(crate) fn place_label(&mut self, alloc: Global, name: &str) -> Result<(), TextCause>
        ensures labelled { OnOk result (self.new ≡ with_label name.now self.old) }
        ensures memory { IfErr result (λ e. e ≡ cause.Memory) }
    {
        let here = self.here();
        self.names.place(alloc, name, here)?;
        self.labelled = self.labelled || !self.in_data;
        self.opened = true;
        Ok(())
    }

    /// Adds a gate of this name and service; `Limit` if there are as many gates as a sandbox may
    /// have.
    fn gate(&mut self, alloc: Global, name: &str, service: u32) -> Result<(), TextCause>
        ensures { AddsUpTo gates_most (length self.old.sandbox.gates + 1) result self.new
            (with_gate name.now service self.old) }
    {
        if self.gates.len() >= GATE_COUNT_MOST {
            return Err(TextCause::Limit);
        }
        let place = self.names.place_of(name);
        self.names
            .place(alloc, name, Named::Gate(self.gates.len()))?;
        self.gates.push(SourceGate {
            name: place,
            service,
        })?;
        Ok(())
    }

    /// Lists the name as an export that the line of number `line` asks for.
    fn export(&mut self, alloc: Global, line: u32, name: &str) -> Result<(), TextCause>
        ensures exported { OnOk result (self.new ≡ with_export line name.now self.old) }
        ensures memory { IfErr result (λ e. e ≡ cause.Memory) }
    {
        let name = self.meet(alloc, name)?;
        self.exports.push(Listed { name, line })?;
        Ok(())
    }

    /// Adds a gate as `gate` does, and lists its name as an import that the line of number `line`
    /// asks for.
    fn import(
        &mut self,
        alloc: Global,
        line: u32,
        name: &str,
        service: u32,
    ) -> Result<(), TextCause>
        ensures { AddsUpTo gates_most (length self.old.sandbox.gates + 1) result self.new
            (with_import line name.now service self.old) }
    {
        let place = self.names.place_of(name);
        self.gate(alloc, name, service)?;
        self.imports.push(Listed { name: place, line })?;
        Ok(())
    }

    /// Adds bytes of data; `Limit` if the data region has no room for them.
    fn push_bytes(&mut self, bytes: &[u8]) -> Result<(), TextCause>
        ensures { AddsUpTo self.old.sandbox.data_size
            (length self.old.sandbox.bytes + length bytes.now) result self.new
            (with_bytes bytes.now self.old) }
    {
        if bytes.len() > self.data_size as usize - self.bytes.len() {
            return Err(TextCause::Limit);
        }
        self.bytes.extend_from_slice(bytes)?;
        Ok(())
    }

    /// Adds `count` bytes of data that are 0; `Limit` if the data region has no room for them.
    fn push_zeros(&mut self, count: u32) -> Result<(), TextCause>
        ensures { AddsUpTo self.old.sandbox.data_size
            (length self.old.sandbox.bytes + count) result self.new
            (with_bytes (replicate count 0) self.old) }
    {
        if count as usize > self.data_size as usize - self.bytes.len() {
            return Err(TextCause::Limit);
        }
        let len = self.bytes.len() + count as usize;
        self.bytes.resize(len, 0)?;
        Ok(())
    }

    /// Adds an instruction of the line of number `line`; `Limit` if there are as many as a sandbox
    /// may have.
    fn push(&mut self, line: u32, body: Body) -> Result<(), TextCause>
        ensures { AddsUpTo items_most (length self.old.sandbox.items + 1) result self.new
            (with_bodies line (body ∷ []) self.old) }
    {
        if self.items.len() >= ITEM_COUNT_MOST {
            return Err(TextCause::Limit);
        }
        self.items.push(Item {
            line,
            labelled: self.labelled,
            rvc: self.rvc,
            body,
        })?;
        self.labelled = false;
        self.opened = true;
        Ok(())
    }

    /// The place of a name that an instruction or an export uses among the sandbox's names. A name
    /// that isn't there goes last, and names nothing yet.
    fn meet(&mut self, alloc: Global, name: &str) -> Result<usize, TextCause>
        ensures met { OnOk result
            (self.new ≡ with_names (met self.old.sandbox.names name.now) self.old) }
        ensures place { IfOk result (λ place. place ≡ place_of self.old.sandbox.names name.now) }
        ensures memory { IfErr result (λ e. e ≡ cause.Memory) }
    {
        Ok(self.names.meet(alloc, name)?)
    }

    /// Adds two instructions of the line of number `line`.
    fn push_two(&mut self, line: u32, first: Body, second: Body) -> Result<(), TextCause>
        ensures { AddsUpTo items_most (length self.old.sandbox.items + 2) result self.new
            (with_bodies line (first ∷ second ∷ []) self.old) }
    {
        self.push(line, first)?;
        self.push(line, second)
    }

    /// Adds the instructions of a `la` on the line of number `line`: they put into `rd` the address
    /// of what the name at this place of the names names. A movable sandbox takes a third one.
    fn push_address(&mut self, line: u32, rd: Reg, place: usize) -> Result<(), TextCause>
        ensures { AddsUpTo items_most
            (length self.old.sandbox.items + address_count self.old.sandbox.movable) result self.new
            (with_bodies line (address_bodies self.old.sandbox.movable rd place) self.old) }
    {
        self.push_two(line, Body::High(rd, place), Body::Low(rd, place))?;
        if self.movable {
            self.push(line, Body::Base(rd, place))?;
        }
        Ok(())
    }

    /// Adds what the line of number `line` states; `Limit` if the sandbox has no room for it.
    pub(crate) fn apply_statement(
        &mut self,
        alloc: Global,
        line: u32,
        statement: &SandboxStatement<'_>,
    ) -> Result<(), TextCause>
        ensures fits { OnOk result (Fits (stated_within statement.now) self.old) }
        ensures after { OnOk result
            (self.new ≡ with_stated line (stated_within statement.now) self.old) }
        ensures cause { IfErr result (λ e. (e ≡ cause.Memory)
            ⊎ ((Fits (stated_within statement.now) self.old → ⊥) × (e ≡ cause.Limit))) }
    {
        match *statement {
            SandboxStatement::Gate { name, service } => self.gate(alloc, name, service),
            SandboxStatement::Export(name) => self.export(alloc, line, name),
            SandboxStatement::Import { name, service } => self.import(alloc, line, name, service),
            SandboxStatement::Movable => {
                self.movable = true;
                Ok(())
            }
            SandboxStatement::Compressed(rvc) => {
                self.rvc = rvc;
                Ok(())
            }
            SandboxStatement::Data => {
                self.in_data = true;
                Ok(())
            }
            SandboxStatement::Bytes(ref bytes) => self.push_bytes(bytes),
            SandboxStatement::Zeros(count) => self.push_zeros(count),
            SandboxStatement::One(instr) => self.push(line, Body::Plain(instr)),
            SandboxStatement::Two(first, second) => {
                self.push_two(line, Body::Plain(first), Body::Plain(second))
            }
            SandboxStatement::Jump { instr, name } => {
                let place = self.meet(alloc, name)?;
                self.push(line, Body::To(instr, place))
            }
            SandboxStatement::Address { rd, name } => {
                let place = self.meet(alloc, name)?;
                self.push_address(line, rd, place)
            }
        }
    }

    /// The sandbox as it stands, and what its table of names is to have.
    pub(crate) fn finish(self) -> (SourcePart, SharedNames)
        ensures sandbox { result.0 ≡ self.sandbox }
        ensures shared { result.1 ≡ self.shared }
    {
        let part = SourcePart::new(
            self.format,
            self.movable,
            self.data_size,
            self.gates,
            self.names,
            self.items,
            self.bytes,
        );
        let shared = SharedNames {
            exports: self.exports,
            imports: self.imports,
        };
        (part, shared)
    }
}
