//! Texts of more than one row, by their names.

/// The text of that name, by which rows (`text NAME`) have it; `None` where none has the name.
pub(super) fn text_named(name: &str) -> Option<&'static str> {
    match name {
        "hi" => Some(HI),
        "front of hi" => Some(HI_FRONT),
        "yields" => Some(YIELDS),
        "reads" => Some(READS),
        "names" => Some(NAMES),
        "sandbox" => Some(SANDBOX),
        "two sandboxes" => Some(TWO_SANDBOXES),
        "64 gates" => Some(GATES),
        "16 puts" => Some(PUTS),
        "digits of 64 gates" => Some(GATE_DIGITS),
        "jumps" => Some(JUMPS),
        "stacked" => Some(STACKED),
        "post to 0" => Some(POST_TO_0),
        "take" => Some(TAKE),
        "front of a neighbour" => Some(NEIGHBOUR_FRONT),
        "movable" => Some(MOVABLE),
        "statuses" => Some(STATUSES),
        _ => None,
    }
}

// Puts two letters and exits with the code of the last.
const HI: &str =
    ".sandbox 256\n.gate put 1\n.gate quit 0\nla a0, msg\nli a1, 2\ncall put\nla a0, msg\nlbu a0, 1(a0)\ncall quit\n.data\nmsg: .byte 72, 105\n";

// Its image up to the fill, which is 88 times 0290, and the data, 4869.
const HI_FRONT: &str =
    "5346493101000000000000010001000000008001000100002000000102000000020000000000000101000000100000010000000073000000b3ff9001b3ef8f01\
    67800f0073000000b3ff9001b3ef8f0167800f00370580011305050093052000eff05ffd37058001130505000100010001000100b37fb501b3efaf0103c51f00eff05ffc";

// The same as a second sandbox, at 02000000, with the same fill and data.
const NEIGHBOUR_FRONT: &str =
    "000000020001000000008002000100002000000202000000020000000000000201000000100000020000000073000000b3ff9001b3ef8f0167800f0073000000\
    b3ff9001b3ef8f0167800f00370580021305050093052000eff05ffd37058002130505000100010001000100b37fb501b3efaf0103c51f00eff05ffc";

// Yields again and again.
const YIELDS: &str = ".sandbox 256\n.gate y 3\nagain: call y\nj again\n";

// Reads into its two data bytes and exits with how many bytes it got.
const READS: &str =
    ".sandbox 256\n.gate get 2\n.gate quit 0\nla a0, buf\nli a1, 2\ncall get\ncall quit\n.data\nbuf: .zero 2\n";

// Two sandboxes, each with its own names: a gate, a name of data that is seen before its place, and labels of code.
const NAMES: &str =
    ".sandbox 256\n.gate exit 0\nla a0, text\nlw a0, 0(a0)\nend: call exit\n.data\n.word 7\ntext: .word 72\n.sandbox 256\nend: ebreak\n";

// A sandbox for any place, after a line of its format, with names of code, of data, and of a gate, twice.
const MOVABLE: &str =
    ".sandbox 256\n.movable\n.import say 3\n.export f\n.export text\n.export say\nf: la a0, text\ncall say\nebreak\n.data\n.zero 2\n\
    text: .byte 72\n";

// A sandbox that returns.
const SANDBOX: &str = ".sandbox 256\nret\n";

// Two of them, of different sizes.
const TWO_SANDBOXES: &str = ".sandbox 256\nret\n.sandbox 4096\nret\n";

// As many gates as a sandbox may have.
const GATES: &str =
    ".sandbox 256\n.gate g0 0\n.gate g1 0\n.gate g2 0\n.gate g3 0\n.gate g4 0\n.gate g5 0\n.gate g6 0\n.gate g7 0\n.gate g8 0\n.gate g9 0\n\
    .gate g10 0\n.gate g11 0\n.gate g12 0\n.gate g13 0\n.gate g14 0\n.gate g15 0\n.gate g16 0\n.gate g17 0\n.gate g18 0\n.gate g19 0\n.gate g20 0\n\
    .gate g21 0\n.gate g22 0\n.gate g23 0\n.gate g24 0\n.gate g25 0\n.gate g26 0\n.gate g27 0\n.gate g28 0\n.gate g29 0\n.gate g30 0\n.gate g31 0\n\
    .gate g32 0\n.gate g33 0\n.gate g34 0\n.gate g35 0\n.gate g36 0\n.gate g37 0\n.gate g38 0\n.gate g39 0\n.gate g40 0\n.gate g41 0\n.gate g42 0\n\
    .gate g43 0\n.gate g44 0\n.gate g45 0\n.gate g46 0\n.gate g47 0\n.gate g48 0\n.gate g49 0\n.gate g50 0\n.gate g51 0\n.gate g52 0\n.gate g53 0\n\
    .gate g54 0\n.gate g55 0\n.gate g56 0\n.gate g57 0\n.gate g58 0\n.gate g59 0\n.gate g60 0\n.gate g61 0\n.gate g62 0\n.gate g63 0\n";

// Puts 65536 bytes 16 times.
const PUTS: &str =
    ".sandbox 65536\n.gate put 1\n.gate quit 0\nli s0, 16\nagain: la a0, bytes\nli a1, 65536\ncall put\naddi s0, s0, -1\nbnez s0, again\n\
    la a0, bytes\n";

// The digits of 64 gates of service 0, one in each of the first bundles.
const GATE_DIGITS: &str =
    "00000001000000001000000100000000200000010000000030000001000000004000000100000000500000010000000060000001000000007000000100000000\
    80000001000000009000000100000000a000000100000000b000000100000000c000000100000000d000000100000000e000000100000000f000000100000000\
    00010001000000001001000100000000200100010000000030010001000000004001000100000000500100010000000060010001000000007001000100000000\
    80010001000000009001000100000000a001000100000000b001000100000000c001000100000000d001000100000000e001000100000000f001000100000000\
    00020001000000001002000100000000200200010000000030020001000000004002000100000000500200010000000060020001000000007002000100000000\
    80020001000000009002000100000000a002000100000000b002000100000000c002000100000000d002000100000000e002000100000000f002000100000000\
    00030001000000001003000100000000200300010000000030030001000000004003000100000000500300010000000060030001000000007003000100000000\
    80030001000000009003000100000000a003000100000000b003000100000000c003000100000000d003000100000000e003000100000000f003000100000000";

// A branch back, addresses of code and data, and an indirect jump.
const JUMPS: &str =
    ".sandbox 256\n.gate exit 0\nli a0, 3\nloop: addi a0, a0, -1\nbnez a0, loop\nla a1, last\njr a1\nebreak\nlast: la a2, number\nlw a0, 0(a2)\n\
    call exit\n.data\nnumber: .word 72\n";

// Keeps a number on its stack, and exits with it.
const STACKED: &str =
    ".sandbox 256\n.gate quit 0\nli a0, 5\naddi sp, sp, -16\nsw a0, 12(sp)\nlw a0, 12(sp)\ncall quit\n";

// Posts 7 to the first sandbox, and exits with the answer.
const POST_TO_0: &str =
    ".sandbox 256\n.gate post 4\n.gate quit 0\nli a0, 0\nli a1, 7\ncall post\ncall quit\n";

// Takes a word from its mailbox, and exits with it.
const TAKE: &str = ".sandbox 256\n.gate take 5\n.gate quit 0\ncall take\ncall quit\n";

// How each help goes on after its options, with any text in place of each `\0`.
const STATUSES: &str = "\n\nExit status:\n  0  \0\n  2  \0\n\nExample:\n  sfi ";
