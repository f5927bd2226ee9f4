//! A source with what its sandboxes' tables of names are to have.

use sfi_source::Source;
use std::marker::Model;

/// A name that a sandbox's table of names is to have.
#[derive(Clone, Copy)]
pub struct Listed {
    /// Its place among the sandbox's names.
    pub name: usize,
    /// The line that says so, from 1.
    pub line: u32,
}

/// What a sandbox's table of names is to have, in the order of the text.
#[derive(Drop)]
pub struct SharedNames {
    pub exports: Vec<Listed>,
    pub imports: Vec<Listed>,
}

impl Model for SharedNames {
    ghost use Rattle.sfi_text.specs.SoFar.{SharedNames};

    ghost Value = { SharedNames };

    ghost view = { λ s. record { exports = s.exports.items; imports = s.imports.items } };
}

/// What a text means.
#[derive(Drop)]
pub struct SourceText {
    pub source: Source,
    /// Of each sandbox what its table of names is to have.
    pub shared: Vec<SharedNames>,
}
