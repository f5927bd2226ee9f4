//! The names of a sandbox, in the order in which they are first seen. A name's place is its number
//! in this order, counted from 0.
ghost use Rattle.std.specs.Prelude.{◌≡◌, ◌<◌, ◌^◌, [], length, map, slice_get, IfOk, OnOk, OnErr};
ghost use Rattle.std.specs.List.{IsDistinct};
ghost use Rattle.std.specs.Option.{option_copied};
ghost use Rattle.std.specs.Str.{bytes_eq};
ghost use Rattle.sfi_source.specs.Names.{meaning, place_of, placed, met};

use crate::item::Named;
use indexmap::IndexMap;
use std::alloc::{AllocError, Global};
use std::marker::Model;

/// The names of a sandbox with what they name, in the order in which they are first seen.
#[derive(Drop)]
pub struct Names {
    named: IndexMap<String, Named>,
}

impl Model for Names {
    ghost use Rattle.std.specs.Prelude.{List, ℕ, map};
    ghost use Rattle.sfi_source.specs.declared.item.Named.{Named};
    ghost use Rattle.sfi_source.specs.Names.{entry_of};

    ghost Value = { List (List ℕ × Named) };

    ghost view = { λ n. map entry_of n.named.entries };
}

impl Names {
    /// No names.
    pub fn new(alloc: Global) -> Names
        ensures { result ≡ [] }
    {
        Names {
            named: IndexMap::new(alloc),
        }
    }

    /// How many names there are.
    pub fn len(&self) -> usize
        ensures len { result ≡ length self.now }
        ensures small { result < 2 ^ 63 }
        ensures differ { IsDistinct bytes_eq (map (λ e. e.0) self.now) }
    {
        self.named.len()
    }

    /// The name at this place; `None` where no name has the place.
    pub fn text(&self, place: usize) -> Option<&str>
        ensures { option_copied result ≡ slice_get (map (λ e. e.0) self.now) place }
    {
        match self.named.get_index(place) {
            Some((name, _)) => Some(name.as_str()),
            None => None,
        }
    }

    /// What the name at this place stands for; `None` where no name has the place.
    pub fn named(&self, place: usize) -> Option<Named>
        ensures { result ≡ slice_get (map (λ e. e.1) self.now) place }
    {
        match self.named.get_index(place) {
            Some((_, named)) => Some(*named),
            None => None,
        }
    }

    /// What this name stands for; `Unknown` where it isn't there.
    pub fn meaning(&self, name: &str) -> Named
        ensures { result ≡ meaning self.now name.now }
    {
        match self.named.get(name) {
            Some(named) => *named,
            None => Named::Unknown,
        }
    }

    /// The place of this name, counted from 0; the number of names where it isn't there.
    pub fn place_of(&self, name: &str) -> usize
        ensures { result ≡ place_of self.now name.now }
    {
        match self.named.get_index_of(name) {
            Some(place) => place,
            None => self.named.len(),
        }
    }

    /// Lets the name stand for `what` from here on, whatever it stood for. A name that is there
    /// keeps its place; a new one goes last. Where memory is refused nothing changes.
    pub fn place(&mut self, alloc: Global, name: &str, what: Named) -> Result<(), AllocError>
        ensures placed { OnOk result (self.new ≡ placed self.old name.now what) }
        ensures unchanged { OnErr result (self.new ≡ self.old) }
    {
        self.named.insert(String::from_str(alloc, name)?, what)?;
        Ok(())
    }

    /// The place of this name, which is entered if it isn't there: last, and as `Unknown`. Where
    /// memory is refused nothing changes.
    pub fn meet(&mut self, alloc: Global, name: &str) -> Result<usize, AllocError>
        ensures met { OnOk result (self.new ≡ met self.old name.now) }
        ensures place { IfOk result (λ place. place ≡ place_of self.old name.now) }
        ensures unchanged { OnErr result (self.new ≡ self.old) }
    {
        match self.named.get_index_of(name) {
            Some(place) => Ok(place),
            None => {
                let place = self.named.len();
                self.named
                    .insert(String::from_str(alloc, name)?, Named::Unknown)?;
                Ok(place)
            }
        }
    }
}
