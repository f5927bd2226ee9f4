//! Code that tries to get out of its sandbox. Each attack is put into the smallest image at many
//! spots; the checks have to make one finding there, at the attack's instruction, or none where the
//! attack breaks no rule; which one follows from the rules in docs/IMAGE.md. A *pair* is the `and`
//! and the `or` that put a register into the data or the code region.
use super::images::{
    C_EBREAK, C_NOP, EBREAK, GATE_HEAD, HEAD, SFI1, SFI2, SFIS, SFIW, SINGLE_HEAD, STUB, bytes_of,
};
use sfi_check::{Feed, Refusal, StreamAnswer, check, check_stream};
use sfi_formats::Format;
use sfi_image::ReaderSource;
use sfi_scan::{Finding, Rule};
use std::alloc::Global;
use std::test::Fail;

/// Where an attack breaks its rule.
#[derive(Clone, Copy)]
enum Harm {
    /// At every spot.
    Anywhere,
    /// In the first format alone: in the second an access on x2 needs no pair.
    FirstFormat,
    /// In the second format alone: in the first x2 is a register like others.
    SecondFormat,
    /// Where no bundle (in words, no word) of the code region begins this many bytes, modulo 2^32,
    /// after the attack's first byte: it has a jump that goes there.
    Jump(u32),
    /// Where it is the last instruction of the code region.
    AtEnd,
    /// At every spot, unless it is the stub: it fills its bundle, and the image lists a gate there.
    Gate,
}

use Harm::{Anywhere, AtEnd, FirstFormat, Gate, Jump, SecondFormat};

/// Its name, its code as digits, the rule that it breaks, the place of the instruction that does,
/// in bytes from the code's first one, and at which spots it does.
#[derive(Clone, Copy)]
struct Attack<'a>(&'a str, &'a str, Rule, u32, Harm);

/// The instruction that fills the bundle's bytes before an attack.
#[derive(Clone, Copy, Debug, PartialEq, Eq)]
enum Filler {
    Nop,
    CNop,
    Ebreak,
}

use Filler::{CNop, Ebreak, Nop};

impl Filler {
    /// Digits and how often they are repeated, in all `bytes` bytes of this filler; `bytes` is
    /// even. Where its instruction has 4 bytes a `c.nop` makes up for the last 2.
    fn pieces(self, bytes: u32) -> [(&'static str, usize); 2] {
        let words = (bytes / 4) as usize;
        let rest = (C_NOP, (bytes % 4 / 2) as usize);
        match self {
            Nop => [("13000000", words), rest],
            CNop => [(C_NOP, 2 * words), rest],
            Ebreak => [(EBREAK, words), rest],
        }
    }
}

/// Where an attack is put: into an image of this format, in which bundle of the code region,
/// counted from 0, and after how many bytes of that, which the filler fills.
#[derive(Drop)]
struct Spot {
    format: Format,
    bundle: u32,
    place: u32,
    filler: Filler,
}

/// The service of an attack's gate, as digits of an image: the exit.
const EXIT: &str = "00000000";

/// How many bundles of 16 bytes the smallest image's code has.
const BUNDLES: u32 = 16;

/// Code that breaks a rule. The columns of a row are: where it does, or how far its jump goes, modulo 2^32; the rule; the
/// place of the instruction that breaks it, counted from the code's first byte; the code; and its name, the rest of the row.
/// x27 or x26 is the second operand of a pair's first or second instruction, x25 or x24 that of a pair for jumps. `c.lwsp`
/// into x24 to x27 is an access without a pair, too: the lowest rule is told.
/// A gate's bundle that isn't the stub breaks V9 alone, at its first byte, whatever its instructions break.
const ATTACKS: &str = "
anywhere V5 8 b3ffad00b3efaf0123a0bf00 operands of and exchanged
anywhere V5 8 b37fb501b36ffd0123a0bf00 operands of or exchanged
anywhere V5 12 b37fb501b3efaf01938f0f0123a0bf00 x31 changed after the pair
anywhere V5 8 b37fb501b3efaf012320bf00 store on x30
anywhere V5 12 b37fb501b3efaf0123a0bf0023a2bf00 two stores on one pair
anywhere V5 8 b37f9501b3ef8f0123a0bf00 pair for jumps before a store
anywhere V5 8 3370b5013360a0012320b000 pair on x0
first V5 0 06c60290 c.swsp
anywhere V5 0 2320b500 store
anywhere V5 4 b37fb50123a0bf00 half a pair
anywhere V6 8 b37fb501b3efaf0167800f00 pair for data before a jump
anywhere V6 8 b37f9501b3ef8f0167804f00 jump 4 bytes further
anywhere V6 0 67800000 jump without a pair
anywhere V6 0 8280 c.jr
4294967294 V7 0 fdbf0290 c.j -2
8 V7 0 63040000 beq x0, x0, 8
4 V7 0 6f004000 jal x0, 4
16 V7 0 0128 c.jal 16
anywhere V4 8 b37fb501b3efaf0103ad0f00 lw x26
anywhere V4 8 b37f9501b3ef8f01e78d0f00 jalr links x27
anywhere V4 0 014c0290 c.li x24
anywhere V4 0 024c c.lwsp x24
anywhere V4 0 824c c.lwsp x25
anywhere V4 0 024d c.lwsp x26
anywhere V4 0 824d c.lwsp x27
anywhere V3 4 1300000073000000 ecall after a nop
anywhere V3 0 73000000 ecall
anywhere V1 0 1f000000 longer than 32 bits
anywhere V1 0 0f100000 fence.i
anywhere V1 0 00000000 no instruction
end V8 0 13000000 addi at the end
gate V9 0 73000000b3ff9001b3ef8f0167800f00 stub
gate V9 0 73001000b3ff9001b3ef8f0167800f00 ebreak of a stub
gate V9 0 1300000073000000b3ff900167800f00 ecall after a nop of a stub
gate V9 0 73000000130000001300000067800000 return without a pair
gate V9 0 73000000b3ff90011300000067800f00 return by half a pair
gate V9 0 73000000b3ff1c00b3ef8f0167800f00 return by operands of and exchanged
gate V9 0 73000000b3ffb001b3efaf0167800f00 return into the data
gate V9 0 73000000b37f9501b3ef8f0167800f00 return to x10
gate V9 0 73000000b3ff9001b3ef8f0167804f00 return 4 bytes further
gate V9 0 73000000b3ff9001b3ef8f01e7800f00 return links x1
gate V9 0 730000002320b5007300100073001000 store at a gate
gate V9 0 00000000000000000000000000000000 no instruction of a stub
second V10 0 41110290 c.addi x2, -16
second V10 0 41610290 c.addi16sp x2, 16
second V10 8 b37fb501b3efaf0103a10f000290 lw x2
";

/// Such rows for code in words. Where a rule asks for a certain next instruction, the place is that
/// of the other one that comes instead. An `ebreak` at an attack's end keeps V8 where the region
/// ends there.
const WORD_ATTACKS: &str = "
anywhere V5 0 2320b500 store on x10
anywhere V5 8 b37fb50133e5af012320b500 store on x10 after its pair
anywhere V5 4 b37fb50123a0bf00 store on the offset register
anywhere V5 0 83250f00 load on the code register
anywhere V5 0 2320bc00 store on the code base
anywhere V10 4 b36ea50123a0be0073001000 data register from x10
anywhere V10 4 930e0500b37fb501b3eeaf0173001000 mask of another register
anywhere V10 8 930e0500b3ffbe01b3e1af0173001000 mask put into another register
anywhere V10 8 930e0500b3ffbe0123a0be0073001000 store between mask and base
anywhere V10 4 03210d002320b10073001000 store on a register that was loaded
anywhere V10 4 93814100a3aeb13e73001000 access 1021 bytes after a step
anywhere V10 4 93814100a3a1b1c073001000 access 1021 bytes before a step
anywhere V10 4 938141002320b20073001000 step before an access on another register
anywhere V10 4 9381410003a0010073001000 load into x0 after a step
anywhere V10 4 938141009381410023a0b10073001000 two steps
anywhere V10 4 9301420023a0b10073001000 step from another register
anywhere V10 0 e7010f00 jalr links x3
anywhere V10 0 6f020000 jal links x4
anywhere V10 2 41110290 c.addi x2, -16
anywhere V10 2 2a820290 c.mv x4
anywhere V6 0 67800000 jump on x1
anywhere V6 4 337f950167000500 jump on what was masked
anywhere V6 0 67004f00 jump 4 bytes further
anywhere V6 0 82800290 c.jr
anywhere V11 4 337f950167000f00 half a pair
anywhere V11 4 337f950101000290 c.nop in a pair
anywhere V11 0 336f850167000f00 code register from x10
anywhere V11 0 130f4f0067000f00 step of the code register
anywhere V12 0 b37fa50173001000 offset by the data base
anywhere V12 0 b3ffad0073001000 operands of and exchanged
anywhere V12 0 938f1f0073001000 step of the offset register
anywhere V12 0 832f0d0073001000 load into the offset register
4294967294 V7 0 fdbf0290 c.j -2
2 V7 0 09a00290 c.j 2
6 V7 0 19200290 c.jal 6
16 V7 0 6f000001 jal 16
4294967280 V7 0 e30800fe73001000 beq -16
10 V7 0 6305000073001000 beq 10
anywhere V4 0 032d0d00 lw x26
anywhere V4 0 e70d0f00 jalr links x27
anywhere V4 0 0d4c0290 c.li x24
anywhere V4 0 824c0290 c.lwsp x25
anywhere V3 0 73000000 ecall
anywhere V2 2 0100130001000290 addi across a word's end
anywhere V2 2 0100670001000290 jalr across a word's end
anywhere V1 0 1f000000 longer than 32 bits
anywhere V1 0 0f100000 fence.i
anywhere V1 0 00000000 no instruction
end V8 0 13000000 addi at the end
";

/// Such rows for code in words whose masks are single.
const SINGLE_ATTACKS: &str = "
anywhere V5 0 2320b500 store on x10
anywhere V5 0 83250f00 load on the code register
anywhere V5 0 2320bc00 store on the code base
anywhere V5 0 23a0bd00 store on the mask
anywhere V5 4 130d4d0023a0b200 step before an access on x5
anywhere V10 4 b36ea50123a0be0073001000 data register from x10
anywhere V10 4 930e0500b37fb50173001000 mask of another register
anywhere V10 4 3301b500b371b10173001000 mask into another register
anywhere V10 4 032d0d002320bd0073001000 store on a register that was loaded
anywhere V10 4 930ff0ff23a0bf0073001000 store on x31 as it was written
anywhere V10 4 33e1af0173001000 base put on an offset
anywhere V10 4 3371a50173001000 mask by x26
anywhere V10 4 33f1ad0073001000 operands of and exchanged
anywhere V10 4 130d4d00a32ebd3e73001000 access 1021 bytes after a step
anywhere V10 4 938f0fffa3a1afc073001000 access 1021 bytes before a step
anywhere V10 4 9381410003a0010073001000 load into x0 after a step
anywhere V10 4 938141009381410023a0b10073001000 two steps
anywhere V10 4 130d01012320bd0073001000 step from another register
anywhere V10 0 670d0f00 jalr links x26
anywhere V10 0 ef0f0000 jal links x31
anywhere V10 2 110d0290 c.addi x26, 4
anywhere V10 2 954f0290 c.li x31
anywhere V6 0 67800000 jump on x1
anywhere V11 4 337f950167000f00 half a pair
anywhere V11 0 337fb501336f8f0167000f00 code register masked as data
6 V7 0 19200290 c.jal 6
anywhere V4 0 b37db501 mask of the mask
anywhere V4 0 e70d0f00 jalr links x27
anywhere V4 0 0d4c0290 c.li x24
anywhere V3 0 73000000 ecall
anywhere V2 2 0100130001000290 addi across a word's end
anywhere V1 0 00000000 no instruction
end V8 0 13000000 addi at the end
";

/// Where an attack breaks its rule, by the first word of its row; `None` for a word that is no name
/// of a `Harm` and no number.
fn harm_of(word: &str) -> Option<Harm> {
    match word {
        "anywhere" => Some(Anywhere),
        "first" => Some(FirstFormat),
        "second" => Some(SecondFormat),
        "end" => Some(AtEnd),
        "gate" => Some(Gate),
        offset => Some(Jump(offset.parse().ok()?)),
    }
}

/// The rule of that name; `None` where none has it.
fn rule_of(word: &str) -> Option<Rule> {
    match word {
        "V1" => Some(Rule::V1),
        "V2" => Some(Rule::V2),
        "V3" => Some(Rule::V3),
        "V4" => Some(Rule::V4),
        "V5" => Some(Rule::V5),
        "V6" => Some(Rule::V6),
        "V7" => Some(Rule::V7),
        "V8" => Some(Rule::V8),
        "V9" => Some(Rule::V9),
        "V10" => Some(Rule::V10),
        "V11" => Some(Rule::V11),
        "V12" => Some(Rule::V12),
        _ => None,
    }
}

/// The attack of a row of a table above; `None` where it isn't written as these.
fn attack_of<'a>(line: &'a str) -> Option<Attack<'a>> {
    let (harm, rest) = line.split_once(' ')?;
    let (rule, rest) = rest.split_once(' ')?;
    let (place, rest) = rest.split_once(' ')?;
    let (code, name) = rest.split_once(' ')?;
    let rule = rule_of(rule)?;
    let place = place.parse().ok()?;
    let harm = harm_of(harm)?;
    Some(Attack(name, code, rule, place, harm))
}

/// Whether a bundle, or in words a word, begins `target` bytes after the code's first one.
fn begins(format: Format, target: u32) -> bool {
    match format {
        Format::Sfi1 | Format::Sfi2 => target % 16 == 0,
        Format::Sfiw | Format::Sfis => target % 4 == 0,
    }
}

/// The address of a bundle where attacks are put, as digits of an image: 16 bytes a bundle from
/// 01000000 on.
fn address_of(bundle: u32) -> &'static str {
    match bundle {
        0 => "00000001",
        3 => "30000001",
        4 => "40000001",
        7 => "70000001",
        _ => "f0000001",
    }
}

/// Whether an attack is tried from this place of a bundle on, in bytes; in words only where a word
/// begins.
fn is_tried(format: Format, place: u32) -> bool {
    !format.has_words() || place % 4 == 0
}

impl<'a> Attack<'a> {
    /// How many bytes its code has. No row has more than the 16 of a bundle.
    fn len(&self) -> u32 {
        (self.1.len() / 2).min(16) as u32
    }

    /// Whether it breaks its rule if it begins `from` bytes after the code region's first one.
    fn harms(&self, format: Format, from: u32) -> bool {
        match self.4 {
            Anywhere => true,
            FirstFormat => format == Format::Sfi1,
            SecondFormat => format == Format::Sfi2,
            Jump(offset) => {
                let target = from.wrapping_add(offset);
                !begins(format, target) || target >= 16 * BUNDLES
            }
            AtEnd => from.wrapping_add(self.len()) == 16 * BUNDLES,
            Gate => self.1 != STUB,
        }
    }

    /// The one finding that a check has to make of it at this spot; `None` where it breaks no rule
    /// there.
    fn finding(&self, spot: &Spot) -> Option<Finding> {
        let from = spot.bundle.wrapping_mul(16).wrapping_add(spot.place);
        if !self.harms(spot.format, from) {
            return None;
        }
        Some(Finding {
            sandbox: 0,
            address: 0x0100_0000u32.wrapping_add(from).wrapping_add(self.3),
            rule: self.2,
        })
    }

    /// The smallest image with the attack at this spot instead of as many bytes of its code, which
    /// is 64 times `ebreak`; `None` where it doesn't fit into the rest of its bundle, of which the
    /// filler has the bytes before it. Half an `ebreak` that is left after it becomes a `c.ebreak`.
    fn image(&self, alloc: Global, spot: &Spot) -> Result<Option<Vec<u8>>, Fail> {
        let Some(after) = 16u32.saturating_sub(spot.place).checked_sub(self.len()) else {
            return Ok(None);
        };
        let (magic, head) = match spot.format {
            Format::Sfi1 => (SFI1, HEAD),
            Format::Sfi2 => (SFI2, HEAD),
            Format::Sfiw => (SFIW, HEAD),
            Format::Sfis => (SFIS, SINGLE_HEAD),
        };
        let (head, gates) = match self.4 {
            Gate => (GATE_HEAD, 1),
            _ => (head, 0),
        };
        let [filler, rest] = spot.filler.pieces(spot.place);
        let words = spot.bundle.saturating_mul(4);
        let pieces = [
            (magic, 1),
            (head, 1),
            (address_of(spot.bundle), gates),
            (EXIT, gates),
            (EBREAK, words as usize),
            filler,
            rest,
            (self.1, 1),
            (C_EBREAK, (after % 4 / 2) as usize),
            (EBREAK, (after / 4) as usize),
            (EBREAK, 60u32.saturating_sub(words) as usize),
        ];
        Ok(Some(bytes_of(alloc, &pieces)?))
    }
}

/// The verdict of a `Feed`, the checker of bytes in pieces. It looks at each bundle by itself,
/// where `check_stream` looks at eight at once, so both ways are tried.
fn fed(bytes: &[u8]) -> StreamAnswer {
    let mut feed = Feed::new();
    feed.feed(bytes);
    feed.answer()
}

/// Whether `check`, `check_stream` and a `Feed` make exactly this finding in the image of one
/// sandbox and 16 bundles, or all accept it where `finding` is `None`.
fn is_found(alloc: Global, bytes: &[u8], finding: Option<Finding>) -> bool {
    let mut reader = bytes;
    let mut source = ReaderSource::new(&mut reader);
    let streamed = check_stream(&mut source);
    if fed(bytes) != streamed {
        return false;
    }
    match (check(alloc, bytes), finding) {
        (Ok(_accepted), None) => {
            streamed
                == StreamAnswer::Accepted {
                    sandboxes: 1,
                    bundles: BUNDLES,
                }
        }
        (Err(Refusal::Findings(found)), Some(first)) => {
            found.as_slice() == [first].as_slice()
                && streamed == StreamAnswer::Findings { count: 1, first }
        }
        _ => false,
    }
}

/// Whether the checks are right about the attack at each place of this bundle, counted from 0,
/// where it is tried and fits.
fn is_found_in(
    alloc: Global,
    attack: &Attack<'_>,
    format: Format,
    bundle: u32,
    filler: Filler,
) -> Result<bool, Fail> {
    for half in 0..8u32 {
        let place = 2 * half;
        if !is_tried(format, place) {
            continue;
        }
        let spot = Spot {
            format,
            bundle,
            place,
            filler,
        };
        if let Some(bytes) = attack.image(alloc, &spot)? {
            if !is_found(alloc, &bytes, attack.finding(&spot)) {
                return Ok(false);
            }
        }
    }
    Ok(true)
}

/// Whether the checks are right about the attack after each filler, in the first bundle, in each
/// quarter of the block of eight that is looked at together, and in the last bundle, which is in
/// none.
fn is_found_everywhere(alloc: Global, attack: &Attack<'_>, format: Format) -> Result<bool, Fail> {
    for bundle in [0u32, 3, 4, 7, 15] {
        for filler in [Nop, CNop, Ebreak] {
            if !is_found_in(alloc, attack, format, bundle, filler)? {
                return Ok(false);
            }
        }
    }
    Ok(true)
}

/// Each attack of the tables in its formats: it is found where it breaks its rule, and only there.
#[test]
fn attacks_are_found(rt: HostRuntime) -> Result<(), Fail> {
    let tables = [
        (ATTACKS, Format::Sfi1),
        (ATTACKS, Format::Sfi2),
        (WORD_ATTACKS, Format::Sfiw),
        (SINGLE_ATTACKS, Format::Sfis),
    ];
    for (table, format) in tables {
        for line in table.lines().skip(1) {
            let Some(attack) = attack_of(line) else {
                return Err(Fail::new(line));
            };
            assert!(rt;
                is_found_everywhere(rt.alloc(), &attack, format)?,
                "{}",
                attack.0
            );
        }
    }
    Ok(())
}
