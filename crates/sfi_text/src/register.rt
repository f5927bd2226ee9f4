//! The names of the registers: x0 to x31, and those of the ABI.
ghost use Rattle.std.specs.Prelude.{◌≡◌, ◌<◌, ℕ, map, IfSome, IfNone};
ghost use Rattle.sfi_text.specs.Tokens.{IsRegister};
ghost use Rattle.sfi_text.specs.private.Reading.{register_names, name_place, name_at, register_at};

use crate::keyword::hash;
use rv_word::Reg;

/// Every name: x0 to x31, those of the ABI in the same order, and fp, a third name of x8.
const NAMES: &[&str; 65] = &[
    "x0", "x1", "x2", "x3", "x4", "x5", "x6", "x7", "x8", "x9", "x10", "x11", "x12", "x13", "x14",
    "x15", "x16", "x17", "x18", "x19", "x20", "x21", "x22", "x23", "x24", "x25", "x26", "x27",
    "x28", "x29", "x30", "x31", "zero", "ra", "sp", "gp", "tp", "t0", "t1", "t2", "s0", "s1", "a0",
    "a1", "a2", "a3", "a4", "a5", "a6", "a7", "s2", "s3", "s4", "s5", "s6", "s7", "s8", "s9",
    "s10", "s11", "t3", "t4", "t5", "t6", "fp",
];

/// The names of the registers.
fn register_names() -> &'static [&'static str; 65]
    ensures { map (λ name. name.now) result.now ≡ register_names }
{
    NAMES
}

/// By the hash of a name, the place in `register_names` that alone can have the name.
const PLACES: &[u8; 256] = &[
    13, 14, 15, 16, 17, 18, 19, 0, 0, 0, 0, 0, 0, 0, 0, 34, 0, 0, 0, 0, 0, 0, 0, 0, 0, 0, 0, 0, 0,
    0, 0, 0, 0, 0, 20, 21, 22, 23, 24, 25, 26, 27, 28, 29, 0, 0, 64, 0, 0, 0, 0, 0, 36, 42, 43, 44,
    45, 46, 47, 48, 49, 0, 0, 0, 58, 59, 0, 0, 0, 0, 0, 30, 31, 0, 0, 0, 0, 0, 0, 0, 0, 0, 0, 35,
    0, 0, 0, 0, 32, 0, 0, 0, 0, 0, 0, 0, 0, 0, 0, 0, 0, 0, 0, 0, 0, 0, 0, 0, 0, 0, 0, 0, 0, 0, 0,
    0, 0, 0, 0, 0, 0, 0, 0, 0, 0, 0, 0, 0, 0, 0, 0, 0, 0, 0, 0, 0, 0, 1, 2, 3, 4, 5, 6, 7, 8, 9, 0,
    0, 0, 0, 0, 0, 0, 0, 0, 0, 0, 0, 0, 0, 0, 0, 0, 0, 0, 0, 0, 0, 0, 0, 0, 0, 0, 0, 0, 0, 0, 0, 0,
    0, 0, 0, 0, 0, 0, 0, 0, 0, 0, 0, 0, 0, 0, 0, 0, 0, 0, 0, 0, 0, 0, 0, 0, 0, 0, 0, 0, 40, 41, 50,
    51, 52, 53, 54, 55, 56, 57, 0, 0, 33, 0, 0, 0, 0, 0, 0, 0, 0, 0, 0, 0, 0, 0, 0, 0, 0, 0, 0, 0,
    0, 0, 0, 0, 0, 37, 38, 39, 60, 61, 62, 63, 0, 0, 10, 11, 12,
];

/// The place in `register_names` that alone can have this name. The two numbers were found by trial: by
/// them no two names have one hash. `name_place` of specs/private/Reading has them, too.
#[tactic(auto, using(crate::proofs::NameTables::register_at_hash))]
fn name_place(name: &str) -> usize
    ensures value { result ≡ name_place name.now }
    ensures small { result < 65 }
{
    PLACES[hash(0, 37, name)] as usize
}

/// The name at this place of `register_names`.
#[tactic(auto, using(crate::proofs::NameTables::at_place))]
fn name_at(place: usize) -> &'static str
    requires { place < 65 }
    ensures { result.now ≡ name_at place }
{
    register_names()[place]
}

/// The register whose name stands at this place of `register_names`: x0 to x31 twice, and then x8
/// as fp.
fn register_at(place: usize) -> Reg
    ensures { result ≡ register_at place }
{
    if place == 64 {
        Reg::numbered(8)
    } else {
        Reg::numbered((place % 32) as u8)
    }
}

/// The register of this name; `None` where no register has it.
pub(crate) fn register(name: &str) -> Option<Reg>
    ensures some { IfSome result (λ r. IsRegister name.now r) }
    ensures none { IfNone result ((r : ℕ) → IsRegister name.now r → ⊥) }
{
    let place = name_place(name);
    if name_at(place) == name {
        Some(register_at(place))
    } else {
        None
    }
}
