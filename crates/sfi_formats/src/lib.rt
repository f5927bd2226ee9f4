//! What a sandbox is confined by: its limits, the formats of images, the registers that have a part
//! in that, and where its regions begin.
//!
//! Each has its name here, and crates above cite it by that; the tables of the first looks (`sfi_masks`,
//! `sfi_scan`) have the registers in their entries, and are proved to agree. The definitions in
//! `specs/` decide; the constants are proved to agree with them (`limits_agree`, `registers_agree` of
//! proofs/Facts). No instruction is known here, so that images don't wait for them: the pairs and a
//! gate's stub are in `sfi_pairs`.
#![tactic(auto)]

mod format;
mod limits;
mod place;
mod registers;

pub use format::Format;
pub use limits::{
    BUNDLE_BYTES, BUNDLE_SIZE, FIRST_FRAME, GATE_COUNT_MOST, GATES_MOST, GUARD, ITEM_COUNT_MOST,
    ITEMS_MOST, NAME_MOST, NAME_MOST_BYTES, REGION_LEAST, REGION_LEAST_BYTES, SANDBOX_COUNT_MOST,
    SANDBOXES_MOST, SERVICE_MOST, SLACK, SOURCE_DATA_MOST,
};
pub use place::{Place, place_of};
pub use registers::{
    CODE_BASE_REGISTER, CODE_MASK_REGISTER, CODE_REGISTER, DATA_BASE_REGISTER, DATA_MASK_REGISTER,
    OFFSET_REGISTER, SCRATCH, STACK_POINTER,
};
