//! The classes of halfwords that the masks are made of, and the tables of nibbles that tell them.

/// By the value of a byte's bits 3:0, and by that of its bits 7:4: a bit for each of eight classes.
#[derive(Clone, Copy)]
pub(crate) struct ByteTable {
    pub(crate) low: [u8; 16],
    pub(crate) high: [u8; 16],
}

/// The tables of the low byte and of the high byte of a halfword.
#[derive(Clone, Copy)]
pub(crate) struct HalfTable {
    pub(crate) low: ByteTable,
    pub(crate) high: ByteTable,
}

// The entry for a value of a nibble: bit k is bit `value` of the k-th number.
macro_rules! entry {
    ($value:literal, $a:expr, $b:expr, $c:expr, $d:expr, $e:expr, $f:expr, $g:expr, $h:expr) => {
        (($a >> $value & 1)
            | ($b >> $value & 1) << 1
            | ($c >> $value & 1) << 2
            | ($d >> $value & 1) << 3
            | ($e >> $value & 1) << 4
            | ($f >> $value & 1) << 5
            | ($g >> $value & 1) << 6
            | ($h >> $value & 1) << 7) as u8
    };
}

// The entries for the sixteen values of a nibble, of eight numbers as `entry` has them.
macro_rules! nibble_table {
    ($($values:expr),*) => {
        [
            entry!(0, $($values),*),
            entry!(1, $($values),*),
            entry!(2, $($values),*),
            entry!(3, $($values),*),
            entry!(4, $($values),*),
            entry!(5, $($values),*),
            entry!(6, $($values),*),
            entry!(7, $($values),*),
            entry!(8, $($values),*),
            entry!(9, $($values),*),
            entry!(10, $($values),*),
            entry!(11, $($values),*),
            entry!(12, $($values),*),
            entry!(13, $($values),*),
            entry!(14, $($values),*),
            entry!(15, $($values),*),
        ]
    };
}

// The tables of eight classes, which have bits 0 to 7 in this order. A class is four numbers: bit v
// is set where a halfword of the class may have the value v in its bits 3:0, 7:4, 11:8 and 15:12.
macro_rules! half_table {
    ($([$a:expr, $b:expr, $c:expr, $d:expr]),*) => {
        HalfTable {
            low: ByteTable {
                low: nibble_table!($($a),*),
                high: nibble_table!($($b),*),
            },
            high: ByteTable {
                low: nibble_table!($($c),*),
                high: nibble_table!($($d),*),
            },
        }
    };
}

// The tables of a high byte in eight classes, each by the values of bits 11:8 and 15:12.
macro_rules! byte_table {
    ($([$c:expr, $d:expr]),*) => {
        ByteTable {
            low: nibble_table!($($c),*),
            high: nibble_table!($($d),*),
        }
    };
}

// No value of a nibble, for a class that isn't used; and every value.
const NONE: u16 = 0;

const ANY: u16 = 0xffff;

// Bits 3:0 of the 16-bit forms of a quadrant, and those of which bits 3:2 aren't 0.
const QUADRANT0: u16 = 0x1111;

const QUADRANT1: u16 = 0x2222;

const QUADRANT1_ON: u16 = 0x2220;

const QUADRANT2: u16 = 0x4444;

const QUADRANT2_ON: u16 = 0x4440;

// Bits 11:8 where bits 11:7 name none of x24 to x27; and neither x0 nor x1 too.
const RD: u16 = 0b1100_1111_1111_1111;

const RD_FROM_X2: u16 = 0b1100_1111_1111_1110;

/// What is free by one halfword: 16-bit forms, and the first halves of words that compute whatever
/// their second halves are.
pub(crate) const ALONE: HalfTable = half_table![
    [QUADRANT1, ANY, ANY, 0x0100],    // C.SRLI, C.SRAI, C.ANDI, C.SUB to C.AND, bit 12 = 0
    [QUADRANT1, ANY, 0x0f00, 0x0300], // C.ANDI
    [1 << 3, 0x0202, RD, 0xdddd],     // OP-IMM, but no shift
    [1 << 7, 0x0a0a, RD, ANY],        // AUIPC, LUI
    [QUADRANT1, ANY, RD, 0x00b3],     // C.ADDI, C.LI, C.LUI with bit 12 = 1
    [QUADRANT2_ON, ANY, RD, 0x0301],  // C.SLLI, C.MV, C.ADD, where bits 3:2 aren't 0
    [QUADRANT2, 0xfefe, RD, 0x0301],  // the same, where bits 6:4 aren't 0
    [NONE, NONE, NONE, NONE]
];

/// More such 16-bit forms; and words that are told with [`NEXT`]: what computes by funct7, and the
/// accesses.
pub(crate) const FOLLOWED: HalfTable = half_table![
    [QUADRANT0, ANY, 0xfffe, 0x0003], // C.ADDI4SPN, where bits 11:8 aren't 0
    [QUADRANT0, 0xfffc, ANY, 0x0003], // C.ADDI4SPN, where bits 7:6 aren't 0, or bit 5
    [QUADRANT1, 0xfefe, RD, 0x0040],  // C.LUI with bit 12 = 0, where bits 6:4 aren't 0
    [1 << 3, 0x0808, RD, ANY],        // OP, funct7 = 0 or 1
    [1 << 3, 0x0a0a, RD, 0x2121],     // SUB, SRA, SRAI and ADDI, funct7 = 32
    [1 << 3, 0x0202, RD, 0x2222],     // SLLI, SRLI, funct7 = 0
    [1 << 3, 0x0101, RD, 0x3737],     // loads
    [1 << 3, 0x0404, ANY, 0x0707]     // stores
];

/// The eight classes of a word by its second halfword: bits 15:9 are its funct7.
pub(crate) const NEXT: ByteTable = byte_table![
    [ANY, ANY],
    [ANY, ANY],
    [ANY, ANY],
    [0x000f, 0x0001],
    [0x0003, 0x0010],
    [0x0003, 0x0001],
    [ANY, ANY],
    [ANY, ANY]
];

/// More 16-bit forms: the accesses on x2, which need no pair where it is a stack pointer, and
/// others.
pub(crate) const REST: HalfTable = half_table![
    [QUADRANT2, ANY, ANY, 0x3000],        // C.SWSP
    [QUADRANT0, ANY, ANY, 0x0002],        // C.ADDI4SPN with bit 12 = 1
    [1 << 2, 0x0001, 0x0001, 0x0200],     // C.EBREAK
    [QUADRANT2, 0xff00, 0x0001, 0x0030],  // C.LWSP into x1
    [QUADRANT2, ANY, RD_FROM_X2, 0x0030], // C.LWSP into x2 or above
    [1 << 2, 0x0101, RD, 0x0001],         // C.SLLI by 0
    [QUADRANT1_ON, ANY, RD, 0x0040],      // C.LUI with bit 12 = 0, where bits 3:2 aren't 0
    [NONE, NONE, NONE, NONE]
];

/// The classes of [`FOLLOWED`] that are free, and the loads and stores.
pub(crate) const FREE: u8 = 0b0011_1111;

pub(crate) const ACCESSES: u8 = 0b1100_0000;

/// The classes of [`REST`] that are free in each format, and where x2 isn't a stack pointer.
pub(crate) const ALL: u8 = 0b1111_1111;

pub(crate) const PLAIN: u8 = 0b0110_0110;

/// The classes of each table that are no writes to the register that bits 11:7 name.
pub(crate) const NO_RD: u8 = 0b1000_0011;

/// By bits 11:8, where bits 11:7 name an odd register: the classes that a halfword may be in, in
/// code in words. [`NO_RD`] stands for x3, x29 and x31.
pub(crate) const WORDS_ODD: [u8; 16] = [
    ALL, NO_RD, ALL, ALL, ALL, ALL, ALL, ALL, ALL, ALL, ALL, ALL, ALL, ALL, NO_RD, NO_RD,
];

/// `WORDS_ODD` where bits 11:7 name an even register: for x2, x4 and x30.
pub(crate) const WORDS_EVEN: [u8; 16] = [
    ALL, NO_RD, NO_RD, ALL, ALL, ALL, ALL, ALL, ALL, ALL, ALL, ALL, ALL, ALL, ALL, NO_RD,
];

/// By bits 19:16 of a word, where bits 19:15 name an odd register: the classes of [`FOLLOWED`] that
/// are free in code in words, accesses too on x3 and x29.
pub(crate) const ON_ODD: [u8; 16] = [
    FREE, ALL, FREE, FREE, FREE, FREE, FREE, FREE, FREE, FREE, FREE, FREE, FREE, FREE, ALL, FREE,
];

/// `ON_ODD` where masks are single: accesses on x31 too.
pub(crate) const ON_ODD_SINGLE: [u8; 16] = [
    FREE, ALL, FREE, FREE, FREE, FREE, FREE, FREE, FREE, FREE, FREE, FREE, FREE, FREE, ALL, ALL,
];

/// `ON_ODD` where bits 19:15 name an even register: accesses on x2, x4 and x26.
pub(crate) const ON_EVEN: [u8; 16] = [
    FREE, ALL, ALL, FREE, FREE, FREE, FREE, FREE, FREE, FREE, FREE, FREE, FREE, ALL, FREE, FREE,
];

/// The first halfwords of single masks, `and d, a, x27` with a data register d: `and` by opcode and
/// funct3, of any a. The first class is for an even d, x2, x4 or x26, the second for an odd one,
/// x3, x29 or x31; the other six of the eight are empty.
pub(crate) const MASK: HalfTable = half_table![
    [1 << 3, 0x0008, 0b0010_0000_0000_0110, 0x8080],
    [1 << 3, 0x0800, 0b1100_0000_0000_0010, 0x8080],
    [NONE, NONE, NONE, NONE],
    [NONE, NONE, NONE, NONE],
    [NONE, NONE, NONE, NONE],
    [NONE, NONE, NONE, NONE],
    [NONE, NONE, NONE, NONE],
    [NONE, NONE, NONE, NONE]
];

/// Their second halfwords, the same for both classes: bits 24:20 name x27, and funct7 is 0. The
/// other six classes are empty here, too.
pub(crate) const MASK_NEXT: HalfTable = half_table![
    [ANY, 1 << 11, 1 << 1, 1 << 0],
    [ANY, 1 << 11, 1 << 1, 1 << 0],
    [NONE, NONE, NONE, NONE],
    [NONE, NONE, NONE, NONE],
    [NONE, NONE, NONE, NONE],
    [NONE, NONE, NONE, NONE],
    [NONE, NONE, NONE, NONE],
    [NONE, NONE, NONE, NONE]
];
