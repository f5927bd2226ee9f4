//! A list as a sink of findings.
ghost use Rattle.std.specs.Prelude.{◌≡◌, IfOk, [], false};

use crate::findings::BundleFindings;
use crate::sink::FindingSink;
use sfi_rules::Finding;
use std::alloc::{AllocError, Global};

/// A sink that keeps all findings in a vector. If memory runs out it remembers that, and
/// [`into_result`](FindingList::into_result) is an error.
#[derive(Drop)]
pub struct FindingList {
    /// The findings that it took, in order, but those for which there was no memory.
    pub found: Vec<Finding>,
    /// Whether memory ran out for a finding.
    pub lacks_memory: bool,
}

impl FindingSink for FindingList {
    ghost use Rattle.sfi_scan.specs.Stretches.{Lists};
    ghost use Rattle.sfi_scan.specs.private.Scanning.{lists_none, lists_more};

    ghost takes = { λ s found t. Lists s.found.items s.lacks_memory found t.found.items t.lacks_memory };

    // What there is no memory for is dropped: the result is an error then.
    fn put(&mut self, found: &BundleFindings) {
        if self.found.extend_from_slice(found.as_slice()).is_err() {
            self.lacks_memory = true;
        }
    }

    ghost none = { λ s. lists_none s.found.items s.lacks_memory };

    ghost more = { λ s t u xs ys one two. lists_more s.found.items s.lacks_memory xs
        t.found.items t.lacks_memory ys u.found.items u.lacks_memory one two };
}

impl FindingList {
    /// A list that took no finding.
    pub fn new(alloc: Global) -> Self
        ensures empty { result.found.items ≡ [] }
        ensures memory { result.lacks_memory ≡ false }
    {
        FindingList {
            found: Vec::new(alloc),
            lacks_memory: false,
        }
    }

    /// All findings that it took; an error if memory ran out for one.
    pub fn into_result(self) -> Result<Vec<Finding>, AllocError>
        ensures { IfOk result (λ found. (self.lacks_memory ≡ false) × (found.items ≡ self.found.items)) }
    {
        if self.lacks_memory {
            Err(AllocError)
        } else {
            Ok(self.found)
        }
    }
}
