//! A case, as C sees it.

use crate::draft::Draft;
use crate::instrs::{FORMS, OPERATIONS};
use crate::random::Random;
use std::alloc::{AllocError, Global};
use x86_instr::encode;
use x86_step::{Core, Flags, Region, Stop, execute};

/// What C sees of a flag that isn't known. `UNKNOWN` of fuzz/processor.c is the same.
const UNKNOWN: u8 = 2;
/// What C sees in the place of a stop where the instruction is done.
const DONE: u8 = 0;

/// An instruction, the registers and flags before it, and what is expected of it. Flags are carry, zero,
/// sign and overflow: 0, 1, or 2 where one is unknown. fuzz/processor.c declares the same struct.
#[repr(C)]
#[derive(Clone, Copy)]
pub struct X86TrialCase {
    /// By number.
    pub registers: [u64; 16],
    pub expected_registers: [u64; 16],
    /// The address of the instruction that comes next.
    pub expected_next: u64,
    pub flags: [u8; 4],
    pub expected_flags: [u8; 4],
    /// The instruction's bytes.
    pub code: [u8; 16],
    /// How many these are.
    pub length: u8,
    /// The place of its form in `Instr`.
    pub form: u8,
    /// Below 180. Modulo the number of operations of the form, each in each width, it says which it is.
    pub operation: u8,
    /// 0 where the instruction is done, 1 for `Stop::Fault`, 2 for `DivideError`, 3 for `UnknownFlag`.
    pub stop: u8,
}

/// A flag as C sees it.
fn flag_number(flag: Option<bool>) -> u8 {
    flag.map_or(UNKNOWN, u8::from)
}

/// The flags as C sees them: carry, zero, sign, overflow.
fn flag_numbers(flags: Flags) -> [u8; 4] {
    [
        flag_number(flags.carry),
        flag_number(flags.zero),
        flag_number(flags.sign),
        flag_number(flags.overflow),
    ]
}

/// A stop as C sees it, by the numbers of `enum stop` in fuzz/processor.c. `NoInstruction` has none
/// there: `execute` never stops so.
fn stop_number(stop: Stop) -> u8 {
    match stop {
        Stop::Fault => 1,
        Stop::DivideError => 2,
        Stop::UnknownFlag => 3,
        Stop::NoInstruction => 4,
    }
}

/// A flag, now and then unknown.
fn random_flag(random: &mut Random) -> Option<bool> {
    if random.once_in(32) {
        None
    } else {
        Some(random.once_in(2))
    }
}

/// The state before an instruction: random registers and flags, and these bytes of memory at `base`.
fn random_core(
    alloc: Global,
    random: &mut Random,
    base: u64,
    memory: &[u8],
) -> Result<Core, AllocError> {
    let mut bytes = Vec::new(alloc);
    bytes.extend_from_slice(memory)?;
    let mut registers = [0u64; 16];
    for number in 0..16 {
        registers[number] = random.number();
    }
    Ok(Core {
        registers,
        flags: Flags {
            carry: random_flag(random),
            zero: random_flag(random),
            sign: random_flag(random),
            overflow: random_flag(random),
        },
        memory: Region { base, bytes },
    })
}

/// Copies as many bytes as both have, from the first on.
fn copy_bytes(from: &[u8], to: &mut [u8]) {
    let count = from.len().min(to.len());
    to[..count].copy_from_slice(&from[..count]);
}

/// Writes the case, as `x86_trial_case` says. Random choices are made in a fixed order: another order
/// makes other cases of the same seeds.
fn make_case(
    alloc: Global,
    seed: u64,
    code: u64,
    data: u64,
    memory: &mut [u8],
    expected_memory: &mut [u8],
    case: &mut X86TrialCase,
) -> Result<(), AllocError> {
    let mut random = Random::from_seed(seed);
    let core = random_core(alloc, &mut random, data, memory)?;
    let (form, operation) = (random.below(FORMS), random.below(OPERATIONS));
    let mut draft = Draft { random, core, code };
    let instr = draft.instr(form, operation as usize);
    let mut core = draft.core;
    let mut bytes = Vec::new(alloc);
    encode(&mut bytes, instr)?;
    copy_bytes(&bytes, &mut case.code);
    copy_bytes(&core.memory.bytes, memory);
    case.length = bytes.len().min(16) as u8;
    case.form = form as u8;
    case.operation = operation as u8;
    case.registers = core.registers;
    case.flags = flag_numbers(core.flags);
    case.stop = DONE;
    match execute(&mut core, instr, code.wrapping_add(bytes.len() as u64)) {
        Ok(next) => case.expected_next = next,
        Err(stop) => case.stop = stop_number(stop),
    }
    case.expected_registers = core.registers;
    case.expected_flags = flag_numbers(core.flags);
    copy_bytes(&core.memory.bytes, expected_memory);
    Ok(())
}

/// Writes the case of a seed into `case`: an instruction at address `code`, with `memory` at address
/// `data`. Some bytes of `memory` are set to random numbers for the instruction to read.
/// `expected_memory`, which is as long, becomes what the instruction makes of it. Returns false if an
/// allocation was refused.
#[unsafe(no_mangle)]
pub extern "C" fn x86_trial_case(
    alloc: Global,
    seed: u64,
    code: u64,
    data: u64,
    memory: &mut [u8],
    expected_memory: &mut [u8],
    case: &mut X86TrialCase,
) -> bool {
    make_case(alloc, seed, code, data, memory, expected_memory, case).is_ok()
}
