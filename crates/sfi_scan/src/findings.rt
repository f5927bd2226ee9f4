//! The findings of one bundle.
ghost use Rattle.std.specs.Prelude.{◌≡◌, ◌<◌, ◌≤◌, ◌++◌, ◌∷◌, [], List, length, take, slice_get};
ghost use Rattle.sfi_rules.specs.declared.finding.Finding.{Finding};

use sfi_rules::{Finding, Rule};
use std::marker::Model;

/// The findings of one bundle, at most eight, in an array. Contracts see them as a list.
#[derive(Drop)]
pub struct BundleFindings {
    found: [Finding; 8],
    count: usize,
}

impl Model for BundleFindings {
    ghost Value = { List Finding };

    ghost view = { λ f. take f.count f.found };

    ghost invariant = { λ f. (f.count ≤ 8) × (length f.found ≡ 8) };
}

impl BundleFindings {
    /// An empty list, which one scan after another may fill.
    pub fn new() -> Self
        ensures { result ≡ [] }
    {
        let none = Finding {
            sandbox: 0,
            address: 0,
            rule: Rule::V1,
        };
        BundleFindings {
            found: [none; 8],
            count: 0,
        }
    }

    /// How many findings there are.
    pub fn count(&self) -> usize
        ensures value { result ≡ length self.now }
        ensures few { result ≤ 8 }
    {
        self.count
    }

    /// Finding `k`, counted from 0; `None` if there are not so many.
    pub fn at(&self, k: usize) -> Option<Finding>
        ensures { result ≡ slice_get self.now k }
    {
        if k < self.count {
            Some(self.found[k])
        } else {
            None
        }
    }

    /// The findings, as a slice.
    pub(crate) fn as_slice(&self) -> &[Finding]
        ensures { result.now ≡ self.now }
    {
        &self.found[..self.count]
    }

    /// Drops all findings.
    pub(crate) fn clear(&mut self)
        ensures { self.new ≡ [] }
    {
        self.count = 0;
    }

    /// Appends a finding, of which there are at most seven before: a bundle has at most eight
    /// instructions, and each at most one finding.
    pub(crate) fn push(&mut self, finding: Finding)
        requires { length self.old < 8 }
        ensures { self.new ≡ self.old ++ finding ∷ [] }
    {
        self.found[self.count] = finding;
        self.count += 1;
    }
}
