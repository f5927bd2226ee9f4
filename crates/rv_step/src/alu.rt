//! What the instructions compute.
ghost use Rattle.std.specs.Prelude.{◌≡◌, ◌%◌, ◌^◌, ◌<◌};
ghost use Rattle.rv_word.specs.Spelling.{IsEven, offset_by};
ghost use Rattle.rv_step.specs.Step.{extended, is_taken, load_size, register_op, result_of as op_result, shifted_right, word};

use rv_word::{Cond, ImmOp, LoadKind, RegOp};

/// The result of an operation on the values of rs1 and rs2.
#[inline(always)]
pub fn result_of(op: RegOp, a: u32, b: u32) -> u32
    ensures { result ≡ op_result op a b }
{
    match op {
        RegOp::Add => a.wrapping_add(b),
        RegOp::Sub => a.wrapping_sub(b),
        RegOp::Sll => a.wrapping_shl(b),
        RegOp::Slt => u32::from(a.cast_signed() < b.cast_signed()),
        RegOp::Sltu => u32::from(a < b),
        RegOp::Xor => a ^ b,
        RegOp::Srl => a.wrapping_shr(b),
        RegOp::Sra => a.cast_signed().wrapping_shr(b).cast_unsigned(),
        RegOp::Or => a | b,
        RegOp::And => a & b,
        RegOp::Mul => a.wrapping_mul(b),
        RegOp::Mulh => high_word(i64::from(a.cast_signed()) * i64::from(b.cast_signed())),
        RegOp::Mulhsu => high_word(i64::from(a.cast_signed()) * i64::from(b)),
        RegOp::Mulhu => ((u64::from(a) * u64::from(b)) >> 32) as u32,
        RegOp::Div if b == 0 => u32::MAX,
        RegOp::Div => a
            .cast_signed()
            .wrapping_div(b.cast_signed())
            .cast_unsigned(),
        RegOp::Divu if b == 0 => u32::MAX,
        RegOp::Divu => a / b,
        RegOp::Rem if b == 0 => a,
        RegOp::Rem => a
            .cast_signed()
            .wrapping_rem(b.cast_signed())
            .cast_unsigned(),
        RegOp::Remu if b == 0 => a,
        RegOp::Remu => a % b,
    }
}

/// Bits 63 to 32 of a product.
#[inline(always)]
fn high_word(product: i64) -> u32
    ensures { result ≡ word (shifted_right product 32) }
{
    ((product >> 32) as i32).cast_unsigned()
}

/// The operation on two registers that computes what this one does with its immediate as the second
/// value.
#[inline(always)]
pub fn register_op_of(op: ImmOp) -> RegOp
    ensures { result ≡ register_op op }
{
    match op {
        ImmOp::Addi => RegOp::Add,
        ImmOp::Slti => RegOp::Slt,
        ImmOp::Sltiu => RegOp::Sltu,
        ImmOp::Xori => RegOp::Xor,
        ImmOp::Ori => RegOp::Or,
        ImmOp::Andi => RegOp::And,
        ImmOp::Slli => RegOp::Sll,
        ImmOp::Srli => RegOp::Srl,
        ImmOp::Srai => RegOp::Sra,
    }
}

/// What a load of this kind writes to its register, where `read` is the number of the bytes that it
/// read: sign-extended by `lb` and `lh`.
#[inline(always)]
pub fn load_result(kind: LoadKind, read: u32) -> u32
    requires { read < 256 ^ load_size kind }
    ensures { result ≡ extended kind read }
{
    match kind {
        LoadKind::Lb => i32::from((read as u8).cast_signed()).cast_unsigned(),
        LoadKind::Lh => i32::from((read as u16).cast_signed()).cast_unsigned(),
        LoadKind::Lw | LoadKind::Lbu | LoadKind::Lhu => read,
    }
}

/// Whether a branch on the values of rs1 and rs2 is taken.
#[inline(always)]
pub fn is_branch_taken(cond: Cond, a: u32, b: u32) -> bool
    ensures { result ≡ is_taken cond a b }
{
    match cond {
        Cond::Beq => a == b,
        Cond::Bne => a != b,
        Cond::Blt => a.cast_signed() < b.cast_signed(),
        Cond::Bge => a.cast_signed() >= b.cast_signed(),
        Cond::Bltu => a < b,
        Cond::Bgeu => a >= b,
    }
}

/// The address `offset` bytes after `a`, modulo 2^32.
#[tactic(auto, using(crate::proofs::States::offset_even))]
#[inline(always)]
pub fn offset_from(a: u32, offset: i32) -> u32
    ensures value { result ≡ offset_by a offset }
    ensures even { a % 2 ≡ 0 → IsEven offset → result % 2 ≡ 0 }
{
    a.wrapping_add_signed(offset)
}
