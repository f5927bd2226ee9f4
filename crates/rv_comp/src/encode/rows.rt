//! The rows of the table of forms, bit by bit.

/// A bit of a row: fixed, or a bit of a field, by its number.
#[derive(Clone, Copy)]
pub(super) enum Bit {
    Zero,
    One,
    Rd(u32),
    Rs1(u32),
    Rs2(u32),
    Imm(u32),
}

// O is 0 and L is 1; D, S, T and I with a number are bits of rd, rs1, rs2 and the immediate.
const O: Bit = Bit::Zero;

const L: Bit = Bit::One;

const D0: Bit = Bit::Rd(0);

const D1: Bit = Bit::Rd(1);

const D2: Bit = Bit::Rd(2);

const D3: Bit = Bit::Rd(3);

const D4: Bit = Bit::Rd(4);

const S0: Bit = Bit::Rs1(0);

const S1: Bit = Bit::Rs1(1);

const S2: Bit = Bit::Rs1(2);

const S3: Bit = Bit::Rs1(3);

const S4: Bit = Bit::Rs1(4);

const T0: Bit = Bit::Rs2(0);

const T1: Bit = Bit::Rs2(1);

const T2: Bit = Bit::Rs2(2);

const T3: Bit = Bit::Rs2(3);

const T4: Bit = Bit::Rs2(4);

const I0: Bit = Bit::Imm(0);

const I1: Bit = Bit::Imm(1);

const I2: Bit = Bit::Imm(2);

const I3: Bit = Bit::Imm(3);

const I4: Bit = Bit::Imm(4);

const I5: Bit = Bit::Imm(5);

const I6: Bit = Bit::Imm(6);

const I7: Bit = Bit::Imm(7);

const I8: Bit = Bit::Imm(8);

const I9: Bit = Bit::Imm(9);

const I10: Bit = Bit::Imm(10);

const I11: Bit = Bit::Imm(11);

const I12: Bit = Bit::Imm(12);

const I13: Bit = Bit::Imm(13);

const I14: Bit = Bit::Imm(14);

const I15: Bit = Bit::Imm(15);

const I16: Bit = Bit::Imm(16);

const I17: Bit = Bit::Imm(17);

/// The rows in the order of the table, each from bit 15 down. `halfword_of` and `place` of
/// specs/Table have their indices.
pub(super) const ROWS: [[Bit; 16]; 26] = [
    [O, O, O, I5, I4, I9, I8, I7, I6, I2, I3, D2, D1, D0, O, O], // C.ADDI4SPN
    [O, L, O, I5, I4, I3, S2, S1, S0, I2, I6, D2, D1, D0, O, O], // C.LW
    [L, L, O, I5, I4, I3, S2, S1, S0, I2, I6, T2, T1, T0, O, O], // C.SW
    [O, O, O, I5, D4, D3, D2, D1, D0, I4, I3, I2, I1, I0, O, L], // C.ADDI
    [O, O, L, I11, I4, I9, I8, I10, I6, I7, I3, I2, I1, I5, O, L], // C.JAL
    [O, L, O, I5, D4, D3, D2, D1, D0, I4, I3, I2, I1, I0, O, L], // C.LI
    [O, L, L, I9, O, O, O, L, O, I4, I6, I8, I7, I5, O, L], // C.ADDI16SP
    [
        O, L, L, I17, D4, D3, D2, D1, D0, I16, I15, I14, I13, I12, O, L,
    ], // C.LUI
    [L, O, O, O, O, O, D2, D1, D0, I4, I3, I2, I1, I0, O, L], // C.SRLI
    [L, O, O, O, O, L, D2, D1, D0, I4, I3, I2, I1, I0, O, L], // C.SRAI
    [L, O, O, I5, L, O, D2, D1, D0, I4, I3, I2, I1, I0, O, L], // C.ANDI
    [L, O, O, O, L, L, D2, D1, D0, O, O, T2, T1, T0, O, L], // C.SUB
    [L, O, O, O, L, L, D2, D1, D0, O, L, T2, T1, T0, O, L], // C.XOR
    [L, O, O, O, L, L, D2, D1, D0, L, O, T2, T1, T0, O, L], // C.OR
    [L, O, O, O, L, L, D2, D1, D0, L, L, T2, T1, T0, O, L], // C.AND
    [L, O, L, I11, I4, I9, I8, I10, I6, I7, I3, I2, I1, I5, O, L], // C.J
    [L, L, O, I8, I4, I3, S2, S1, S0, I7, I6, I2, I1, I5, O, L], // C.BEQZ
    [L, L, L, I8, I4, I3, S2, S1, S0, I7, I6, I2, I1, I5, O, L], // C.BNEZ
    [O, O, O, O, D4, D3, D2, D1, D0, I4, I3, I2, I1, I0, L, O], // C.SLLI
    [O, L, O, I5, D4, D3, D2, D1, D0, I4, I3, I2, I7, I6, L, O], // C.LWSP
    [L, O, O, O, S4, S3, S2, S1, S0, O, O, O, O, O, L, O], // C.JR
    [L, O, O, L, S4, S3, S2, S1, S0, O, O, O, O, O, L, O], // C.JALR
    [L, O, O, O, D4, D3, D2, D1, D0, T4, T3, T2, T1, T0, L, O], // C.MV
    [L, O, O, L, D4, D3, D2, D1, D0, T4, T3, T2, T1, T0, L, O], // C.ADD
    [L, O, O, L, O, O, O, O, O, O, O, O, O, O, L, O], // C.EBREAK
    [L, L, O, I5, I4, I3, I2, I7, I6, T4, T3, T2, T1, T0, L, O], // C.SWSP
];
