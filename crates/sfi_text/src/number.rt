//! Numbers of source: decimal, or hexadecimal after `0x`.
ghost use Rattle.std.specs.Prelude.{◌≡◌, ◌++◌, ◌<◌, ◌≤◌, ◌^◌, ℕ, ℤ, List, MatchOption, IfSome, IfNone};
ghost use Rattle.std.specs.Str.Parse.{IsNumeral, digits_value};
ghost use Rattle.sfi_text.specs.Tokens.{IsMagnitude, IsNumber};
ghost use Rattle.sfi_text.specs.private.Reading.{IsInReach};

/// What follows this prefix of a text; `None` where the text doesn't begin with it.
pub(crate) fn after_prefix<'a>(text: &'a str, prefix: &str) -> Option<&'a str>
    ensures { MatchOption result ((rest : List ℕ) → text.now ≡ prefix.now ++ rest → ⊥)
        (λ rest. text.now ≡ prefix.now ++ rest.now) }
{
    text.strip_prefix(prefix)
}

/// The value of a text that is digits of this radix alone, one at least. None where 64 bits can't
/// hold it, and for other text, too: an empty one, one with a sign or with anything else that is no
/// digit.
fn value_of_digits(text: &str, radix: u32) -> Option<u64>
    requires low { 2 ≤ radix }
    requires high { radix ≤ 16 }
    ensures some { IfSome result (λ n.
        IsNumeral radix text.now × (n ≡ digits_value radix text.now)) }
    ensures none { IfNone result
        (IsNumeral radix text.now → digits_value radix text.now < 2 ^ 64 → ⊥) }
{
    // A plus, which `from_str_radix` takes, is no digit.
    if text.starts_with('+') {
        return None;
    }
    match u64::from_str_radix(text, radix) {
        Ok(n) => Some(n),
        Err(_) => None,
    }
}

/// The number that a text without a sign writes, in decimal or after `0x` in hexadecimal; `None`
/// where 64 bits can't hold it, and for other text.
fn magnitude(text: &str) -> Option<u64>
    ensures some { IfSome result (λ n. IsMagnitude text.now n) }
    ensures none { IfNone result ((n : ℕ) → IsMagnitude text.now n → n < 2 ^ 64 → ⊥) }
{
    match after_prefix(text, "0x") {
        Some(hex) => value_of_digits(hex, 16),
        None => value_of_digits(text, 10),
    }
}

/// The number that a token writes, from -2147483648 to 4294967295: what 32 bits hold, with or
/// without a sign. `None` for any other number, and for what writes none.
pub(crate) fn parse_number(text: &str) -> Option<i64>
    ensures some { IfSome result (λ z. IsNumber text.now z × IsInReach z) }
    ensures none { IfNone result ((z : ℤ) → IsNumber text.now z → IsInReach z → ⊥) }
{
    match after_prefix(text, "-") {
        Some(digits) => match magnitude(digits) {
            Some(n) => {
                if n <= 2147483648 {
                    Some(-(n as i64))
                } else {
                    None
                }
            }
            None => None,
        },
        None => match magnitude(text) {
            Some(n) => {
                if n <= 4294967295 {
                    Some(n as i64)
                } else {
                    None
                }
            }
            None => None,
        },
    }
}
