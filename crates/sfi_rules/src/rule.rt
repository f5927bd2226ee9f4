//! The rules, their numbers and their names.
ghost use Rattle.std.specs.Prelude.{◌≡◌};

use sfi_formats::Format;

/// A rule of sandboxed code. What breaks it depends on whether code is in bundles, as in the first
/// two formats, or in words. The variants here say it for readers; the definitions are in
/// specs/Rules, for words in specs/words.
#[derive(Clone, Copy, PartialEq, Eq, Debug)]
pub enum Rule {
    /// The bytes are no instruction.
    V1,
    /// A 32-bit instruction crosses the bundle's end, or in words isn't at a multiple of 4.
    V2,
    /// An `ecall` that isn't the first instruction of a listed gate.
    V3,
    /// A reserved register is written: x24 to x27, but x26 isn't reserved in the fourth format.
    V4,
    /// A load or store without the data pair on its base directly before it. In the second format
    /// one on x2 needs no pair. In words: one on neither a data register nor x26.
    V5,
    /// An indirect jump with an offset, or without the code pair on its base directly before it. In
    /// words: with an offset, or not on x30.
    V6,
    /// A jump or branch to what is no bundle start of its own code region, or in words no multiple
    /// of 4 there.
    V7,
    /// The region's last bundle, or word, is read whole, and its last instruction isn't ebreak, jal
    /// or jalr.
    V8,
    /// A listed gate's bundle isn't the gate stub. (There is none in words: V6 and V11 confine how
    /// a gate goes back.)
    V9,
    /// The stack pointer x2 of the second format is written, by neither instruction of the pair
    /// `and x2, a, x27`, `or x2, x2, x26`, nor by one other than jal and jalr that this pair
    /// directly follows in its bundle. In words: what must follow a write of a data register
    /// doesn't, or a jump writes one.
    V10,
    /// In words: x30 is written by `and x30, a, x25` and `or x30, x30, x24` doesn't follow
    /// directly, or it is written otherwise than by these two.
    V11,
    /// In the third format: the offset register x31 is written otherwise than by `and x31, a, x27`.
    V12,
}

impl Rule {
    ghost use Rattle.sfi_rules.specs.Rules.{number_of, numbered, rule_name};
    ghost use Rattle.sfi_rules.specs.declared.rule.Rule.TheVariants.{V10};

    /// The rule's number, 1 for V1 and so on: C and reports know the rule by it.
    pub fn number(self) -> u32
        ensures { result ≡ number_of self }
    {
        match self {
            Rule::V1 => 1,
            Rule::V2 => 2,
            Rule::V3 => 3,
            Rule::V4 => 4,
            Rule::V5 => 5,
            Rule::V6 => 6,
            Rule::V7 => 7,
            Rule::V8 => 8,
            Rule::V9 => 9,
            Rule::V10 => 10,
            Rule::V11 => 11,
            Rule::V12 => 12,
        }
    }

    /// The rule of that number, which is what [`number`](Rule::number) gives for it; `None` if it
    /// isn't 1 to 12.
    pub fn numbered(number: u32) -> Option<Rule>
        ensures { result ≡ numbered number }
    {
        match number {
            1 => Some(Rule::V1),
            2 => Some(Rule::V2),
            3 => Some(Rule::V3),
            4 => Some(Rule::V4),
            5 => Some(Rule::V5),
            6 => Some(Rule::V6),
            7 => Some(Rule::V7),
            8 => Some(Rule::V8),
            9 => Some(Rule::V9),
            10 => Some(Rule::V10),
            11 => Some(Rule::V11),
            12 => Some(Rule::V12),
            _ => None,
        }
    }

    /// The rule's name in reports, of an image of that format: V10 alone has two. The tables of
    /// docs/IMAGE.md have these names, too.
    pub fn name(self, format: Format) -> &'static str
        ensures { result.now ≡ rule_name format self }
    {
        match self {
            Rule::V1 => "decode",
            Rule::V2 => "cross",
            Rule::V3 => "ecall",
            Rule::V4 => "reserved",
            Rule::V5 => "access",
            Rule::V6 => "jump",
            Rule::V7 => "target",
            Rule::V8 => "end",
            Rule::V9 => "gate",
            Rule::V10 => Self::name_of_v10(format),
            Rule::V11 => "code",
            Rule::V12 => "offset",
        }
    }

    /// The name of V10: in words it is about data registers, else about the stack pointer.
    fn name_of_v10(format: Format) -> &'static str
        ensures { result.now ≡ rule_name format V10 }
    {
        if format.has_words() { "data" } else { "stack" }
    }
}
