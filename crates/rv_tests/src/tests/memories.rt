//! Memories as their callers use them. Both implementations of `Memory`, `Segments` and `Pages`,
//! have to give the same answers, which follow from the documentation of that trait.
use rv_mem::{AddFault, Memory, Pages, Segments, Width};
use std::process::Abort;

/// Whether the memory holds these bytes from address `base` on.
pub(super) fn holds<M: Memory>(memory: &M, base: u32, bytes: &[u8]) -> bool {
    let mut at = base;
    for byte in bytes {
        if memory.load(at, Width::One) != Some(u32::from(*byte)) {
            return false;
        }
        at = at.wrapping_add(1);
    }
    true
}

/// Whether none of the `size` addresses from `base` on has a byte.
fn lacks<M: Memory>(memory: &M, base: u32, size: u32) -> bool {
    (0..size).all(|k| memory.load(base.wrapping_add(k), Width::One).is_none())
}

/// A call of a memory's method: its arguments, and last what it has to answer.
pub(super) enum Call {
    /// The first address and size of a region to add, its first bytes (the others are 0), the
    /// answer.
    Add(u32, u32, &'static [u8], Result<(), AddFault>),
    /// Address, width, value, and whether it is stored: not where a byte is missing.
    Store(u32, Width, u32, bool),
    /// Address, width, and the value, `None` where a byte is missing.
    Load(u32, Width, Option<u32>),
    /// Address, and the halfword there, `None` where a byte is missing.
    Fetch(u32, Option<u16>),
    /// An address, and how many addresses from it on have no byte.
    Lacks(u32, u32),
}

use Call::{Add, Fetch, Lacks, Load, Store};

/// A region up to the last address, and one at 0. A byte more doesn't fit, and an access at the
/// last address goes on at address 0.
const UP_TO_THE_LAST_ADDRESS: [Call; 12] = [
    Add(0xffff_ff00, 257, &[], Err(AddFault::End)),
    Lacks(0xffff_ff00, 257),
    Add(0xffff_ff00, 256, &[1, 2], Ok(())),
    Load(0xffff_ff00, Width::Four, Some(0x0201)),
    Load(0xffff_ffff, Width::Four, None),
    Add(0xffff_ffff, 2, &[], Err(AddFault::Overlap)),
    Lacks(0, 1),
    Add(0, 256, &[3, 4, 5], Ok(())),
    Load(0xffff_ffff, Width::Four, Some(0x0504_0300)),
    Store(0xffff_ffff, Width::One, 6, true),
    Load(0xffff_ffff, Width::Two, Some(0x0306)),
    Add(0x8000_0000, 0x8000_0001, &[], Err(AddFault::Overlap)),
];

/// A store with a missing byte changes none, and a fetch with one gives `None`.
const ALL_BYTES_OR_NONE: [Call; 8] = [
    Add(0x0180_0000, 256, &[], Ok(())),
    Store(0x0180_00fc, Width::Four, 0x1234_5678, true),
    Store(0x0180_00fc, Width::One, 0xffff_ff9a, true),
    Load(0x0180_00fd, Width::Two, Some(0x3456)),
    Fetch(0x0180_00fc, Some(0x569a)),
    Store(0x0180_00fe, Width::Four, 0, false),
    Load(0x0180_00fc, Width::Four, Some(0x1234_569a)),
    Fetch(0x0180_00ff, None),
];

/// Two regions of which the second begins where the first ends: accesses cross that border.
const REGIONS_MEET: [Call; 8] = [
    Add(0x0180_0000, 256, &[1, 2, 3], Ok(())),
    Add(0x0180_0100, 256, &[4], Ok(())),
    Load(0x0180_00fe, Width::Four, Some(0x0004_0000)),
    Load(0x0180_01fe, Width::Four, None),
    Load(0x0180_0000, Width::Four, Some(0x0003_0201)),
    Fetch(0x0180_0001, Some(0x0302)),
    Store(0x0180_01fe, Width::Four, 0x5566_7788, false),
    Load(0x0180_01fe, Width::Two, Some(0)),
];

/// A region of several pages of `Pages`, and a store across the border of two.
const SEVERAL_PAGES: [Call; 3] = [
    Add(0x0180_0000, 8192, &[], Ok(())),
    Store(0x0180_0ffe, Width::Four, 0x4433_2211, true),
    Load(0x0180_1000, Width::Two, Some(0x4433)),
];

/// Lists of calls; each list is for a memory that is empty before it.
const CALLS: [&[Call]; 3] = [&UP_TO_THE_LAST_ADDRESS, &ALL_BYTES_OR_NONE, &REGIONS_MEET];

impl Call {
    /// Makes the call: whether the memory's answer is the one that the call says.
    fn is_answered<M: Memory>(&self, memory: &mut M) -> bool {
        match *self {
            Add(base, size, bytes, answer) => {
                bytes.len() <= size as usize && memory.add(base, size, bytes) == answer
            }
            Store(address, width, value, is_done) => {
                memory.store(address, width, value) == is_done
            }
            Load(address, width, value) => memory.load(address, width) == value,
            Fetch(address, half) => memory.fetch16(address) == half,
            Lacks(base, size) => lacks(memory, base, size),
        }
    }
}

/// Makes the calls one after another, and tries that each has the answer that it says.
pub(super) fn are_answered<M: Memory>(rt: &impl Abort, memory: &mut M, calls: &[Call]) {
    let mut number = 0usize;
    for call in calls {
        assert!(rt; call.is_answered(memory), "call {number}");
        number = number.wrapping_add(1);
    }
}

/// Adds 256 bytes at `base`, which overlap the region of 8192 bytes at 01800000. Whether that is
/// refused, the region still holds `bytes`, and nothing was added on either side.
fn is_overlap<M: Memory>(memory: &mut M, base: u32, bytes: &[u8]) -> bool {
    memory.add(base, 256, &[9; 256]) == Err(AddFault::Overlap)
        && holds(memory, 0x0180_0000, bytes)
        && lacks(memory, 0x017f_ff00, 256)
        && lacks(memory, 0x0180_2000, 256)
}

/// Tries that a region isn't added that overlaps another at its front, inside it, or at its end.
fn overlaps_change_nothing<M: Memory>(rt: &impl Abort, memory: &mut M) {
    are_answered(rt, memory, &SEVERAL_PAGES);
    let mut bytes = [0u8; 8192];
    bytes[0xffe..0x1002].copy_from_slice(&[0x11, 0x22, 0x33, 0x44]);
    for base in [0x017f_ff01, 0x0180_0000, 0x0180_1f00, 0x0180_1fff] {
        assert!(rt; is_overlap(memory, base, &bytes), "{base:08x}");
    }
}

/// The calls over `Segments`.
#[test]
fn segments(rt: HostRuntime) {
    for calls in CALLS {
        are_answered(&rt, &mut Segments::new(rt.alloc()), calls);
    }
    overlaps_change_nothing(&rt, &mut Segments::new(rt.alloc()));
}

/// The same calls over `Pages`.
#[test]
fn pages(rt: HostRuntime) {
    for calls in CALLS {
        are_answered(&rt, &mut Pages::new(rt.alloc()), calls);
    }
    overlaps_change_nothing(&rt, &mut Pages::new(rt.alloc()));
}
