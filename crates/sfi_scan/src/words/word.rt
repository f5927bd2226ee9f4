//! The scan of one word of code in words: one instruction of 32 bits, or two of 16. Each function
//! takes what is owed before it (`Owed`: what it has to do, because an earlier one wrote a typed
//! register), and returns what is owed after it. It appends to `found`.
ghost use Rattle.std.specs.Prelude.{◌≡◌, ◌+◌, ◌*◌, ◌≤◌, ◌<◌, ◌++◌, List, Some, length};
ghost use Rattle.sfi_rules.specs.Readings.{IsWithin};
ghost use Rattle.sfi_rules.specs.declared.finding.Finding.{Finding};
ghost use Rattle.sfi_rules.specs.words.Findings.{IsWordFound, found_at, lowest};
ghost use Rattle.sfi_rules.specs.words.Rules.{owed_next};
ghost use Rattle.sfi_scan.specs.private.Scanning.{IsInside};

use crate::findings::BundleFindings;
use crate::words::look::look_at_word;
use crate::words::owed::Owing;
use crate::words::rules::lowest_rule_in_words;
use rv_comp::{Front, read_front};
use rv_word::Instr;
use sfi_rules::{BundlePlace, Finding, Owed, Rule};

/// Appends the finding that `rule` is broken at `address`.
fn add_finding(place: &BundlePlace, address: u32, rule: Rule, found: &mut BundleFindings)
    requires { length found.old < 8 }
    ensures { found.new ≡ found.old ++ found_at place.now address (Some rule) }
{
    found.push(Finding {
        sandbox: place.sandbox,
        address,
        rule,
    });
}

/// Appends the finding of the instruction of `size` bytes, if it has one: of the lowest rule that
/// it breaks. Returns what is owed after it.
fn scan_instruction(
    place: &BundlePlace,
    address: u32,
    size: u32,
    owed: Owed,
    instr: &Instr,
    found: &mut BundleFindings,
) -> Owed
    requires within { IsWithin place.now }
    requires inside { IsInside place.now address size }
    requires room { length found.old < 8 }
    ensures next { result ≡ owed_next place.now.format owed instr.now }
    ensures few { length found.new ≤ length found.old + 1 }
    ensures found { found.new ≡ found.old ++ found_at place.now address (lowest (record {
      bundle = place.now;
      address = address;
      owed = owed;
      instr = instr.now;
      size = size;
    })) }
{
    let owing = Owing::of(place.format, owed, instr);
    if let Some(rule) = lowest_rule_in_words(place, address, size, owed, owing, instr) {
        add_finding(place, address, rule, found);
    }
    owing.next()
}

/// Appends the findings of the word at `address`, instruction by instruction, and returns what is
/// owed after it: nothing after bytes that can't be read. Not inlined, since few words get here.
#[inline(never)]
fn scan_word_exactly(
    place: &BundlePlace,
    address: u32,
    word: &[u8],
    owed: Owed,
    found: &mut BundleFindings,
) -> Owed
    requires within { IsWithin place.now }
    requires inside { IsInside place.now address 4 }
    requires whole { length word.now ≡ 4 }
    requires room { length found.old ≤ 6 }
    ensures { (here : List Finding) × (found.new ≡ found.old ++ here) × (length here ≤ 2)
        × IsWordFound place.now address owed word.now here result }
{
    let (first, size) = match read_front(word) {
        Front::Read(first, size) => (first, size),
        Front::Short | Front::Bad => {
            add_finding(place, address, Rule::V1, found);
            return Owed::Nothing;
        }
    };
    let owed = scan_instruction(place, address, size, owed, &first, found);
    if size == 4 {
        return owed;
    }
    match read_front(&word[2..]) {
        Front::Read(second, size) => {
            scan_instruction(place, address + 2, size, owed, &second, found)
        }
        Front::Short => {
            add_finding(place, address + 2, Rule::V2, found);
            Owed::Nothing
        }
        Front::Bad => {
            add_finding(place, address + 2, Rule::V1, found);
            Owed::Nothing
        }
    }
}

/// Appends the findings of the word of these four bytes at `address`, two at most, and returns what
/// is owed after it. Most have none, so a first look comes before the exact reading, but at the
/// region's last word, which has a rule of its own.
#[inline(always)]
pub(crate) fn scan_word(
    place: &BundlePlace,
    address: u32,
    word: &[u8],
    owed: Owed,
    found: &mut BundleFindings,
) -> Owed
    requires within { IsWithin place.now }
    requires inside { IsInside place.now address 4 }
    requires whole { length word.now ≡ 4 }
    requires room { length found.old ≤ 6 }
    ensures { (here : List Finding) × (found.new ≡ found.old ++ here) × (length here ≤ 2)
        × IsWordFound place.now address owed word.now here result }
{
    if address - place.code_base < place.code_size - 4 {
        if let Some(next) = look_at_word(place, address, word, owed) {
            return next;
        }
    }
    scan_word_exactly(place, address, word, owed, found)
}
