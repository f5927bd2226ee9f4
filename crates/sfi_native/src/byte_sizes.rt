//! Sizes in bytes that parts of the code count on, as specs/Code.antt has them.

/// The way out of a line (`leave_size`): the sandbox's address, and a jump.
pub(crate) const LEAVE_BYTES: u32 = 10;

/// A test of the steps left (`steps_code`, `test_code`): a comparison, and a jump.
pub(crate) const TEST_BYTES: u32 = 10;

/// Of the indirect jump, the test that a unit starts there (`start_size`).
const START_BYTES: u32 = 18;

/// Of the indirect jump, the way to that unit's code (`enter_size`).
pub(crate) const ENTER_BYTES: u32 = 26;

/// The indirect jump behind its test of the steps left.
pub(crate) const START_AND_ENTER_BYTES: u32 = START_BYTES + ENTER_BYTES;

/// The indirect jump that all lines of jalr share (`indirect_jump_size`).
pub(crate) const INDIRECT_JUMP_BYTES: u32 = TEST_BYTES + START_AND_ENTER_BYTES;

/// What stands between the last line and the way out (`end_size`), the indirect jump with it.
pub(crate) const END_BYTES: u32 = 4 + LEAVE_BYTES + INDIRECT_JUMP_BYTES;
