//! The scan of a bundle.
ghost use Rattle.std.specs.Prelude.{◌≡◌, ◌+◌, ◌<◌};
ghost use Rattle.sfi_formats.specs.Limits.{bundle_size};
ghost use Rattle.sfi_rules.specs.Readings.{IsWithin};
ghost use Rattle.sfi_rules.specs.Findings.{AreBundleFindings, AreReadingFindings};

use crate::before::Before;
use crate::clean::is_seen_clean;
use crate::findings::BundleFindings;
use crate::rules::lowest_rule;
use rv_comp::{Front, read_front};
use sfi_formats::BUNDLE_BYTES;
use sfi_pairs::STUB;
use sfi_rules::{BundlePlace, Finding, Rule};

/// The finding that `rule` is broken `offset` bytes after the start of the bundle at `place`.
fn finding(place: &BundlePlace, offset: usize, rule: Rule) -> Finding
    requires within { IsWithin place.now }
    requires inside { offset < bundle_size }
    ensures { result ≡ record {
      sandbox = place.now.sandbox;
      address = place.now.address + offset;
      rule = rule;
    } }
{
    Finding {
        sandbox: place.sandbox,
        address: place.address + offset as u32,
        rule,
    }
}

/// Reads the bundle instruction by instruction, and replaces `findings` by what it finds: at most
/// one for each instruction, of the lowest rule that it breaks. It stops at bytes that can't be
/// read. Not inlined, since few bundles get here.
#[inline(never)]
fn scan_instructions(place: &BundlePlace, bytes: &[u8; BUNDLE_BYTES], findings: &mut BundleFindings)
    requires within { IsWithin place.now }
    ensures { AreReadingFindings place.now bytes.now findings.new }
{
    findings.clear();
    let mut before = Before::nothing();
    let mut at = 0;
    while at < BUNDLE_BYTES {
        match read_front(&bytes[at..]) {
            Front::Read(instr, size) => {
                let next = at + size as usize;
                let address = place.address + at as u32;
                if let Some(rule) = lowest_rule(place, address, &before, &instr, &bytes[next..]) {
                    findings.push(finding(place, at, rule));
                }
                before = before.and_then(instr);
                at = next;
            }
            Front::Short => {
                findings.push(finding(place, at, Rule::V2));
                return;
            }
            Front::Bad => {
                findings.push(finding(place, at, Rule::V1));
                return;
            }
        }
    }
}

/// Replaces `findings` by those of the bundle with these bytes, in the order of their addresses. A
/// listed gate's bundle that isn't the stub has V9 alone. For code in bundles; [`scan_words`] is
/// for code in words.
///
/// [`scan_words`]: crate::scan_words
pub fn scan_bundle(place: &BundlePlace, bytes: &[u8; BUNDLE_BYTES], findings: &mut BundleFindings)
    requires { IsWithin place.now }
    ensures { AreBundleFindings place.now bytes.now findings.new }
{
    if place.listed && *bytes != STUB {
        findings.clear();
        findings.push(finding(place, 0, Rule::V9));
    } else if is_seen_clean(place, bytes) {
        findings.clear();
    } else {
        scan_instructions(place, bytes, findings);
    }
}
