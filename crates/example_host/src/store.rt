//! Values by key.
ghost use Rattle.std.specs.Prelude.{◌≡◌, ◌↔◌, true, false, Ok, OnErr};
ghost use Rattle.example_host.specs.Store.{no_values, value_at, may_put, is_new, with_value};

use std::alloc::{AllocError, Global};
use std::collections::BTreeMap;
use std::marker::Model;

/// How many keys a store has at most: without a bound a sandbox could take all memory of its host.
const MOST_KEYS: usize = 64;

/// A word for each of some keys.
#[derive(Drop)]
pub struct Store {
    values: BTreeMap<u32, u32>,
}

impl Model for Store {
    ghost use Rattle.example_host.specs.Store.{StoreState};

    ghost Value = { StoreState };

    ghost view = { λ s. record { values = s.values.entries } };
}

impl Store {
    /// A store without a key.
    pub fn new(alloc: Global) -> Store
        ensures { result ≡ no_values }
    {
        Store {
            values: BTreeMap::new(alloc),
        }
    }

    /// The value of a key; `None` where it has none.
    pub fn value(&self, key: u32) -> Option<u32>
        ensures { result ≡ value_at self.now key }
    {
        self.values.get(&key).copied()
    }

    /// Gives a key a value; `false` where the key is new and the store is full,
    /// and then nothing changed. An error means that memory ran out: nothing changed then, either.
    pub fn put(&mut self, key: u32, value: u32) -> Result<bool, AllocError>
        ensures done { result ≡ Ok true → self.new ≡ with_value self.old key value }
        ensures full { result ≡ Ok false → self.new ≡ self.old }
        ensures room { result ≡ Ok true → may_put self.old key ≡ true }
        ensures no_room { result ≡ Ok false → may_put self.old key ≡ false }
        ensures memory { OnErr result (self.new ≡ self.old) }
        ensures memory_new { OnErr result (is_new self.old key ≡ true) }
        ensures memory_room { OnErr result (may_put self.old key ≡ true) }
    {
        if self.values.len() >= MOST_KEYS && !self.values.contains_key(&key) {
            return Ok(false);
        }
        self.values.insert(key, value)?;
        Ok(true)
    }
}
