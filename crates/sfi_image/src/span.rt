//! Spans of addresses.
ghost use Rattle.std.specs.Prelude.{◌++◌, ◌↔◌, ◌∷◌, [], IsTrue};
ghost use Rattle.std.specs.List.{All, AllPairs};
ghost use Rattle.sfi_image.specs.Spelling.{AreApart};
ghost use Rattle.sfi_image.specs.Sources.{IsBounded};

/// The `size` addresses from `base` on. The end may be 2 ^ 32, so both numbers have 64 bits.
#[repr(C)]
#[derive(Clone, Copy)]
pub struct Span {
    /// The first address.
    pub base: u64,
    /// How many there are.
    pub size: u64,
}

/// Whether no address lies in both spans.
fn are_apart(one: Span, other: Span) -> bool
    requires one { IsBounded one }
    requires other { IsBounded other }
    ensures { IsTrue result ↔ AreApart one other }
{
    one.base + one.size <= other.base || other.base + other.size <= one.base
}

/// Whether the span lies apart from each of the others.
fn is_apart_from_all(one: Span, others: &[Span]) -> bool
    requires one { IsBounded one }
    requires others { All IsBounded others.now }
    ensures { IsTrue result ↔ All (λ other. AreApart other one) others.now }
{
    for other in others {
        if !are_apart(*other, one) {
            return false;
        }
    }
    true
}

/// Whether the spans `code` and `guarded`, of one sandbox, lie apart from the spans `before`, of
/// others, and from each other. Those before are known to lie apart.
pub fn are_all_apart(before: &[Span], code: Span, guarded: Span) -> bool
    requires bounded { All IsBounded before.now }
    requires code { IsBounded code }
    requires guarded { IsBounded guarded }
    requires apart { AllPairs AreApart before.now }
    ensures { IsTrue result ↔ AllPairs AreApart (before.now ++ (code ∷ guarded ∷ [])) }
{
    if !is_apart_from_all(code, before) {
        return false;
    }
    if !is_apart_from_all(guarded, before) {
        return false;
    }
    are_apart(code, guarded)
}
