//! The state of a sandbox: its pc, the instruction there, and its registers.
ghost use Rattle.std.specs.Prelude.{◌≡◌, ◌++◌, OnOk, IfOk, string_bytes};
ghost use Rattle.sfi_formats.specs.declared.format.Format.{Format};
ghost use Rattle.sfi_image.specs.Spelling.{view};
ghost use Rattle.sfi_report.specs.State.{code_from, register_text, registers_text, state_front, IsStateText};
ghost use Rattle.sfi_report.specs.private.{Adds, IsPlaceLine};

use crate::digits::push_eight_digits;
use crate::listing::push_instruction;
use rv_comp::{Front, read_front};
use rv_step::Cpu;
use rv_word::Reg;
use sfi_image::SandboxPart;
use std::alloc::{AllocError, Global};

/// The code's bytes from an address on; no bytes where the address lies outside the code.
fn code_from<'a>(part: &SandboxPart<'a>, at: u32) -> &'a [u8]
    ensures { (format : Format) → result.now ≡ code_from (view format part.now) at }
{
    if at < part.code_base {
        return &[];
    }
    let offset = (at - part.code_base) as usize;
    if offset > part.code.len() {
        return &[];
    }
    &part.code[offset..]
}

/// Writes the line of an address, where `code` is the code from there on: the instruction as the
/// listing has it, or two hyphens where there is none.
fn push_place_line(out: &mut String, at: u32, code: &[u8]) -> Result<(), AllocError>
    ensures { OnOk result
        (Adds (string_bytes out.old) (string_bytes out.new) (IsPlaceLine at code.now)) }
{
    match read_front(code) {
        Front::Read(instr, size) => push_instruction(out, at, &code[..size as usize], &instr),
        Front::Short | Front::Bad => {
            push_eight_digits(out, at)?;
            out.push_str(" --\n")
        }
    }
}

/// Writes a register with its value, `xN=AAAAAAAA`. A line ends after x7, x15, x23 and x31.
fn push_register_value(out: &mut String, register: Reg, value: u32) -> Result<(), AllocError>
    ensures { OnOk result
        (string_bytes out.new ≡ string_bytes out.old ++ register_text register value) }
{
    let number = register.number();
    write!(out, "x{number}=")?;
    push_eight_digits(out, value)?;
    if number % 8 == 7 {
        out.push_str("\n")
    } else {
        out.push_str(" ")
    }
}

/// Writes the registers x1 to x31.
fn push_registers(out: &mut String, cpu: &Cpu) -> Result<(), AllocError>
    ensures { OnOk result
        (string_bytes out.new ≡ string_bytes out.old ++ registers_text cpu.now 31) }
{
    for place in 0..31 {
        let register = Reg::numbered(place + 1);
        push_register_value(out, register, cpu.reg(register))?;
    }
    Ok(())
}

/// Writes how the text of sandbox `sandbox` begins, `sandbox=S pc=`; the pc follows.
fn push_state_front(out: &mut String, sandbox: u32) -> Result<(), AllocError>
    ensures { OnOk result (string_bytes out.new ≡ string_bytes out.old ++ state_front sandbox) }
{
    write!(out, "sandbox={sandbox} pc=")
}

/// The state of sandbox `sandbox`, which is this part of an image: five lines.
///
/// The first is `sandbox=S pc=` and then the line that [`listing_text`](crate::listing_text) has of
/// the instruction at pc; where the code has none there, it ends in two hyphens after the pc. The
/// others are the registers x1 to x31, as `xN=AAAAAAAA`, and end after x7, x15, x23 and x31. The
/// one error is that an allocation was refused.
pub fn state_text(
    alloc: Global,
    sandbox: u32,
    part: &SandboxPart<'_>,
    cpu: &Cpu,
) -> Result<String, AllocError>
    ensures text { (format : Format) → IfOk result
        (λ text. IsStateText sandbox (view format part.now) cpu.now (string_bytes text)) }
{
    let mut out = String::new(alloc);
    push_state_front(&mut out, sandbox)?;
    push_place_line(&mut out, cpu.pc(), code_from(part, cpu.pc()))?;
    push_registers(&mut out, cpu)?;
    Ok(out)
}
