//! Numbers by which C keeps our enums, in an `SfiStream` and other structs. A function `X_numbered`
//! undoes `X_number`, and takes any other number, too, since C may pass one. A new variant goes
//! into both, and into specs/Streams.
ghost use Rattle.std.specs.Prelude.{◌≡◌};
ghost use Rattle.sfi_c.specs.Streams.{stage_of, owed_of, fault_of, first_finding};

use sfi_check::SfiFinding;
use sfi_image::{LayoutFault, Stage};
use sfi_rules::{Finding, Owed, Rule};

/// The number of what a layout reader reads next.
pub(crate) fn stage_number(next: Stage) -> u32
    ensures { stage_of result ≡ next }
{
    match next {
        Stage::Magic => 0,
        Stage::Count => 1,
        Stage::Fields => 2,
        Stage::Gate => 3,
        Stage::Code => 4,
        Stage::Init => 5,
        Stage::End => 6,
        Stage::Nothing => 7,
    }
}

/// What a layout reader reads next, by its number; `Nothing` for each number above 6.
pub(crate) fn stage_numbered(number: u32) -> Stage
    ensures { result ≡ stage_of number }
{
    match number {
        0 => Stage::Magic,
        1 => Stage::Count,
        2 => Stage::Fields,
        3 => Stage::Gate,
        4 => Stage::Code,
        5 => Stage::Init,
        6 => Stage::End,
        _ => Stage::Nothing,
    }
}

/// The number of what is owed (what the next instruction has to do, in code in words): one for its
/// kind, 0 to 4, plus 8 times its register.
pub(crate) fn owed_number(owed: Owed) -> u32
    ensures { owed_of result ≡ owed }
{
    match owed {
        Owed::Nothing => 0,
        Owed::Code => 1,
        Owed::Mask(register) => 8 * register as u32 + 2,
        Owed::PlaceOnly(register) => 8 * register as u32 + 3,
        Owed::MaskOrUse(register) => 8 * register as u32 + 4,
    }
}

/// What is owed, by its number. `Nothing` for each kind above 4.
pub(crate) fn owed_numbered(number: u32) -> Owed
    ensures { result ≡ owed_of number }
{
    let register = (number / 8 % 256) as u8;
    match number % 8 {
        1 => Owed::Code,
        2 => Owed::Mask(register),
        3 => Owed::PlaceOnly(register),
        4 => Owed::MaskOrUse(register),
        _ => Owed::Nothing,
    }
}

/// The number of the layout's fault, 1 to 11, or 0 where there is none.
pub(crate) fn fault_number(fault: Option<LayoutFault>) -> u32
    ensures { fault_of result ≡ fault }
{
    match fault {
        Some(fault) => fault.number(),
        None => 0,
    }
}

/// The layout's fault of that number; `None` for 0 and all above 11. `LayoutFault` of `sfi_image`
/// has the same numbers.
pub(crate) fn fault_numbered(number: u32) -> Option<LayoutFault>
    ensures { result ≡ fault_of number }
{
    match number {
        1 => Some(LayoutFault::Magic),
        2 => Some(LayoutFault::Count),
        3 => Some(LayoutFault::Short),
        4 => Some(LayoutFault::Code),
        5 => Some(LayoutFault::Data),
        6 => Some(LayoutFault::GuardRoom),
        7 => Some(LayoutFault::Start),
        8 => Some(LayoutFault::Gates),
        9 => Some(LayoutFault::Init),
        10 => Some(LayoutFault::Overlap),
        11 => Some(LayoutFault::Trailing),
        _ => None,
    }
}

/// The first finding for C to keep; zeros where there is none.
pub(crate) fn first_finding_for_c(first: Option<Finding>) -> SfiFinding
    ensures { first_finding result ≡ first }
{
    match first {
        Some(finding) => SfiFinding::from_finding(finding),
        None => SfiFinding::none(),
    }
}

/// The first finding that C keeps; `None` where its rule is 0, or no rule's number.
pub(crate) fn first_finding_from_c(first: SfiFinding) -> Option<Finding>
    ensures { result ≡ first_finding first }
{
    let rule = Rule::numbered(first.rule)?;
    Some(Finding {
        sandbox: first.sandbox,
        address: first.address,
        rule,
    })
}
