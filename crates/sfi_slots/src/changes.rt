//! What each call of calls.rt makes of its slot; `None` where the slot isn't in a state for the
//! call, which then changes nothing. Each function is the definition of its name in specs/Slots.
ghost use Rattle.std.specs.Prelude.{◌≡◌};
ghost use Rattle.sfi_slots.specs.Slots.{with_versions, begun, accepted, refused, tried, placing, grown, turned, confirmed, rolled_back, removed};

use crate::bounds::SfiBounds;
use crate::slot::{ACCEPTED, EMPTY, GOOD, ON_TRIAL, RECEIVING, SfiSlot, SfiVersion, new_version};

/// The slot with these two versions. None of the current one's code counts as written, since the
/// code that lies in its place may be another's.
fn with_versions(slot: &SfiSlot, current: SfiVersion, other: SfiVersion) -> SfiSlot
    ensures { result ≡ with_versions slot.now current other }
{
    SfiSlot {
        current,
        other,
        updates: slot.updates,
        written: 0,
    }
}

/// An update begins: the version that isn't current is dropped. `None` while the current one is on
/// trial.
pub(crate) fn begun(slot: SfiSlot) -> Option<SfiSlot>
    ensures { result ≡ begun slot }
{
    if slot.current.state == ON_TRIAL {
        return None;
    }
    Some(SfiSlot {
        other: new_version(RECEIVING, slot.other.memory),
        ..slot
    })
}

/// The update was accepted, with these bounds. `fits` says whether these lie apart from what other
/// slots keep: `None` if not, or if no update was being received, or no number is left for the
/// version.
pub(crate) fn accepted(fits: bool, bounds: SfiBounds, slot: SfiSlot) -> Option<SfiSlot>
    ensures { result ≡ accepted fits bounds slot }
{
    if slot.updates == u32::MAX {
        return None;
    }
    if !(fits && slot.other.state == RECEIVING) {
        return None;
    }
    let updates = slot.updates + 1;
    let other = SfiVersion {
        state: ACCEPTED,
        number: updates,
        turns: 0,
        memory: slot.other.memory,
        bounds,
    };
    Some(SfiSlot {
        other,
        updates,
        ..slot
    })
}

/// The update was refused, and is dropped. `None` if none was being received.
pub(crate) fn refused(slot: SfiSlot) -> Option<SfiSlot>
    ensures { result ≡ refused slot }
{
    if slot.other.state != RECEIVING {
        return None;
    }
    Some(SfiSlot {
        other: new_version(EMPTY, slot.other.memory),
        ..slot
    })
}

/// The accepted update takes the current version's place, on trial for `turns` turns; the current
/// one becomes the other. `None` while the current one is on trial, or if there is no accepted
/// update.
pub(crate) fn tried(turns: u32, slot: SfiSlot) -> Option<SfiSlot>
    ensures { result ≡ tried turns slot }
{
    if slot.current.state == ON_TRIAL {
        return None;
    }
    if slot.other.state != ACCEPTED {
        return None;
    }
    let current = SfiVersion {
        state: ON_TRIAL,
        turns,
        ..slot.other
    };
    Some(with_versions(&slot, current, slot.current))
}

/// The current version's code is written anew. `None` if no version is current.
pub(crate) fn placing(slot: SfiSlot) -> Option<SfiSlot>
    ensures { result ≡ placing slot }
{
    if slot.current.state < ON_TRIAL {
        return None;
    }
    Some(SfiSlot { written: 0, ..slot })
}

/// The next `count` bytes of the current version's code are written. `None` if it has no such
/// bytes, or no version is current.
pub(crate) fn grown(count: u32, slot: SfiSlot) -> Option<SfiSlot>
    ensures { result ≡ grown count slot }
{
    if slot.current.state < ON_TRIAL {
        return None;
    }
    let written = u64::from(slot.written) + u64::from(count);
    if written > u64::from(slot.current.bounds.code_size) {
        return None;
    }
    Some(SfiSlot {
        written: written as u32,
        ..slot
    })
}

/// A turn of a trial is used, and another one is left. `None` if none is, or no version is on
/// trial.
pub(crate) fn turned(slot: SfiSlot) -> Option<SfiSlot>
    ensures { result ≡ turned slot }
{
    if slot.current.turns <= 1 {
        return None;
    }
    if slot.current.state != ON_TRIAL {
        return None;
    }
    let turns = slot.current.turns - 1;
    Some(SfiSlot {
        current: SfiVersion {
            turns,
            ..slot.current
        },
        ..slot
    })
}

/// The version on trial has reported, and is good. `None` if none is on trial.
pub(crate) fn confirmed(slot: SfiSlot) -> Option<SfiSlot>
    ensures { result ≡ confirmed slot }
{
    if slot.current.state != ON_TRIAL {
        return None;
    }
    Some(SfiSlot {
        current: SfiVersion {
            state: GOOD,
            turns: 0,
            ..slot.current
        },
        ..slot
    })
}

/// The version on trial is dropped, and the older one, if there is one, is current again. `None` if
/// none is on trial.
pub(crate) fn rolled_back(slot: SfiSlot) -> Option<SfiSlot>
    ensures { result ≡ rolled_back slot }
{
    if slot.current.state != ON_TRIAL {
        return None;
    }
    Some(with_versions(&slot, slot.other, new_version(EMPTY, slot.current.memory)))
}

/// Both versions are dropped; the number of updates stays. `None` unless the current one is good.
pub(crate) fn removed(slot: SfiSlot) -> Option<SfiSlot>
    ensures { result ≡ removed slot }
{
    if slot.current.state != GOOD {
        return None;
    }
    let current = new_version(EMPTY, slot.current.memory);
    Some(with_versions(&slot, current, new_version(EMPTY, slot.other.memory)))
}
