//! What was found so far, in numbers: what a verdict needs of the findings, without a list of them.
ghost use Rattle.std.specs.Prelude.{◌≡◌, ◌==◌, ◌+◌, ◌<◌, ◌≤◌, ◌^◌, ◌++◌, List, cond, slice_get};
ghost use Rattle.sfi_formats.specs.Limits.{sandboxes_most};
ghost use Rattle.sfi_rules.specs.declared.finding.Finding.{Finding};
ghost use Rattle.sfi_check.specs.private.{Counts};

use sfi_scan::{BundleFindings, BundlePlace, Finding, Owed};

/// How many sandboxes and bundles were scanned, and how many findings they have, with the first.
#[derive(Clone, Copy)]
pub struct Tally {
    /// How many sandboxes have a bundle that was scanned.
    pub sandboxes: u32,
    /// How many bundles were scanned.
    pub bundles: u32,
    /// How many findings they have.
    pub count: u32,
    /// The first finding, by sandbox and then by address.
    pub first: Option<Finding>,
    /// What is owed after the code of the last bundle, where code is in words: what the next
    /// instruction has to do, because an earlier one wrote a typed register.
    pub owed: Owed,
}

/// The first finding of all: `first`, or where there was none, the first of `found`.
fn earliest_finding(first: Option<Finding>, found: &BundleFindings) -> Option<Finding>
    ensures { (before : List Finding) → first ≡ slice_get before 0
        → result ≡ slice_get (before ++ found.now) 0 }
{
    match first {
        Some(finding) => Some(finding),
        None => found.at(0),
    }
}

impl Tally {
    /// What is owed before the code at `place`: nothing where its region begins.
    #[inline]
    pub(crate) fn owed_at(&self, place: &BundlePlace) -> Owed
        ensures { result ≡ cond (place.now.address == place.now.code_base) Owed.Nothing self.now.owed }
    {
        if place.address == place.code_base {
            Owed::Nothing
        } else {
            self.owed
        }
    }

    /// Counts `bundles` more bundles of sandbox `sandbox`, counted from 0, and the sandboxes up to
    /// that one.
    #[inline]
    pub(crate) fn add_bundles(&mut self, sandbox: u32, bundles: u32)
        requires room { self.old.bundles + bundles < 2 ^ 32 }
        requires sandbox { sandbox < sandboxes_most }
        ensures { self.new ≡ record self.old {
          sandboxes = sandbox + 1;
          bundles = self.old.bundles + bundles;
        } }
    {
        self.sandboxes = sandbox + 1;
        self.bundles += bundles;
    }

    /// Counts the findings of a bundle, which come after those so far. The count never wraps: an
    /// image has fewer than 2^32 instructions, and each at most one finding.
    #[inline]
    pub(crate) fn add_findings(&mut self, found: &BundleFindings)
        ensures { Counts self.old self.new found.now }
    {
        let count = found.count() as u32;
        if count > 0 {
            self.count = self.count.wrapping_add(count);
            self.first = earliest_finding(self.first, found);
        }
    }
}
