//! The instruction at pc.
ghost use Rattle.rv_step.specs.Step.{IsAtPc};

use crate::cpu::Cpu;
use rv_comp::{Front, read_front};
use rv_mem::Memory;

/// The instruction at pc; `Short` where a byte of it is missing, and `Bad` where the bytes spell
/// none. The second two bytes are read only where the first two begin an instruction of 4 bytes.
pub fn fetch<M: Memory>(cpu: &Cpu, memory: &M) -> Front
    ensures { IsAtPc (record { hart = cpu.now; memory = M.bytes memory.now }) result }
{
    let pc = cpu.pc();
    let Some(low) = memory.fetch16(pc) else {
        return Front::Short;
    };
    let [byte0, byte1] = low.to_le_bytes();
    let first = read_front(&[byte0, byte1]);
    match first {
        Front::Short => {}
        _ => return first,
    }
    let Some(high) = memory.fetch16(pc.wrapping_add(2)) else {
        return Front::Short;
    };
    let [byte2, byte3] = high.to_le_bytes();
    read_front(&[byte0, byte1, byte2, byte3])
}
