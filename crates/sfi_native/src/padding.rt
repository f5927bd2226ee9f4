//! Where nops stand. A line's draft is its bytes with all distances 0, which are as many. Code is
//! right by any nops; these keep jumps of instructions off borders of 32 bytes, at which some
//! processors decode again and again (Intel, "Mitigations for Jump Conditional Code Erratum"). Those
//! of heads and of the indirect jump that lines share stand where they come.
use crate::line::{Line, push_line};
use crate::plan::Plan;
use sfi_image::SandboxPart;
use std::alloc::{AllocError, Global};
use x86_instr::NopSize;

/// No jump stands across or before a multiple of so many bytes, counted from where code begins.
const BORDER: usize = 32;

/// So many bytes before a jcc count as its own: the most that a comparison has, so that some nops aren't needed.
const COMPARISON: usize = 5;

/// The bytes of a jcc, and of a jmp.
const JCC: usize = 6;

const JMP: usize = 5;

/// Nops by their size, the smallest first.
const NOPS: [NopSize; 9] = [
    NopSize::One,
    NopSize::Two,
    NopSize::Three,
    NopSize::Four,
    NopSize::Five,
    NopSize::Six,
    NopSize::Seven,
    NopSize::Eight,
    NopSize::Nine,
];

/// Whether the bytes of a jump from offset `start` to `end`, which is behind them, lie across a
/// border or end right before one.
fn meets_border(start: usize, end: usize) -> bool {
    start / BORDER != end / BORDER
}

/// Whether the bytes of a line's draft at index `at` look like a jcc.
fn is_jcc(draft: &[u8], at: usize) -> bool {
    match (draft.get(at), draft.get(at.saturating_add(1))) {
        (Some(first), Some(second)) => *first == 0x0F && *second / 16 == 8,
        _ => false,
    }
}

/// How many jumps of a line's draft lie at a border, as `meets_border` says, where the draft starts
/// at `offset` in the code: each jcc, and a jmp at its end that doesn't go out. What looks like a jcc
/// counts as one.
fn met_by(draft: &[u8], offset: usize) -> u32 {
    let mut met = 0_u32;
    for at in 0..draft.len() {
        let start = offset.saturating_add(at);
        if is_jcc(draft, at)
            && meets_border(start.saturating_sub(COMPARISON), start.saturating_add(JCC))
        {
            met = met.saturating_add(1);
        }
    }
    let end = offset.saturating_add(draft.len());
    if ends_in_jmp(draft) && meets_border(end.saturating_sub(JMP), end) {
        met = met.saturating_add(1);
    }
    met
}

/// Whether a draft ends in a jmp, or what looks like one, that doesn't go out: before one that does,
/// an address is moved into edx (opcode BA).
fn ends_in_jmp(draft: &[u8]) -> bool {
    let end = draft.len();
    let is_way_out = end >= 2 * JMP && draft[end - 2 * JMP] == 0xBA;
    end >= JMP && draft[end - JMP] == 0xE9 && !is_way_out
}

/// The nop before a draft at `offset` in the code by which fewest of its jumps lie at a border, the
/// smallest of these; None, if as few do without a nop.
fn nop_before(draft: &[u8], offset: usize) -> Option<NopSize> {
    let mut least = met_by(draft, offset);
    let mut found = None;
    if least == 0 {
        return None;
    }
    for size in NOPS {
        let met = met_by(draft, offset.saturating_add(size.bytes() as usize));
        if met < least {
            least = met;
            found = Some(size);
        }
    }
    found
}

/// For each two bytes of a sandbox's code the nop that is to stand before the instruction there, if
/// one is. `plan` is the plan so far, without nops.
pub(crate) fn padding_of(
    alloc: Global,
    part: &SandboxPart<'_>,
    plan: &Plan,
    lines: &[Line],
) -> Result<Vec<Option<NopSize>>, AllocError> {
    let mut padding = vec![in alloc; None; part.code.len() / 2]?;
    let mut draft = Vec::new(alloc);
    let mut offset = 0_usize;
    for line in lines {
        draft.clear();
        push_line(&mut draft, plan, *line, 0, 0)?;
        if let Line::Does { at, .. } = line {
            if let Some(size) = nop_before(&draft, offset) {
                let place = at.wrapping_sub(part.code_base) / 2;
                if let Some(nop) = padding.get_mut(place as usize) {
                    *nop = Some(size);
                    offset = offset.saturating_add(size.bytes() as usize);
                }
            }
        }
        offset = offset.saturating_add(draft.len());
    }
    Ok(padding)
}
