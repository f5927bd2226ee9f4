//! The first lines of a translation, as `examples/translate/lines.py` makes them of a listing.
use sfi_image::parse_image;
use sfi_translate::translation_text;
use std::test::Fail;

// The image of examples/hi.s up to its first `ebreak`: its head, its gates, and its code.
const IMAGE: [u8; 132] = [
    83, 70, 73, 49, 1, 0, 0, 0, 0, 0, 0, 1, 0, 1, 0, 0, 0, 0, 128, 1, 0, 1, 0, 0, 32, 0, 0, 1, 2,
    0, 0, 0, 2, 0, 0, 0, 0, 0, 0, 1, 1, 0, 0, 0, 16, 0, 0, 1, 0, 0, 0, 0, 115, 0, 0, 0, 179, 255,
    144, 1, 179, 239, 143, 1, 103, 128, 15, 0, 115, 0, 0, 0, 179, 255, 144, 1, 179, 239, 143, 1,
    103, 128, 15, 0, 55, 5, 128, 1, 19, 5, 5, 0, 147, 5, 32, 0, 239, 240, 95, 253, 55, 5, 128, 1,
    19, 5, 5, 0, 1, 0, 1, 0, 1, 0, 1, 0, 179, 127, 181, 1, 179, 239, 175, 1, 3, 197, 31, 0, 239,
    240, 95, 252,
];

const LINES: &str = "\
        SANDBOX(0,16,01000000,256,01800000,256,01000020,2,2)\n\
        GATE(01000000,1)\n\
        GATE(01000010,0)\n\
        DATA(0,72,105,0)\n\
        FUNCTION(0,01000000)\n\
        ENTRY(01000000)\n\
        HEAD(01000000)\n\
        ECALL(01000000,4)\n\
        OP(01000004,4,and,31,1,25)\n\
        OP(01000008,4,or,31,31,24)\n\
        JALR(0100000c,4,0,31,0)\n\
        ENTRY(01000010)\n\
        ECALL(01000010,4)\n\
        OP(01000014,4,and,31,1,25)\n\
        OP(01000018,4,or,31,31,24)\n\
        JALR(0100001c,4,0,31,0)\n\
        ENTRY(01000020)\n\
        LUI(01000020,4,10,6144)\n\
        OPI(01000024,4,addi,10,10,0)\n\
        OPI(01000028,4,addi,11,0,2)\n\
        JAL(0100002c,4,1,01000000)\n\
        ENTRY(01000030)\n\
        LUI(01000030,4,10,6144)\n\
        OPI(01000034,4,addi,10,10,0)\n\
        OPI(01000038,2,addi,0,0,0)\n\
        OPI(0100003a,2,addi,0,0,0)\n\
        OPI(0100003c,2,addi,0,0,0)\n\
        OPI(0100003e,2,addi,0,0,0)\n\
        OP(01000040,4,and,31,10,27)\n\
        OP(01000044,4,or,31,31,26)\n\
        LOAD(01000048,4,lbu,10,31,1)\n\
        JAL(0100004c,4,1,01000010)\n\
        ENTRY(01000050)\n";

#[test]
fn hi_is_translated(rt: HostRuntime) -> Result<(), Fail> {
    let mut bytes = Vec::new(rt.alloc());
    bytes.extend_from_slice(&IMAGE)?;
    for _ in 0..88 {
        bytes.push(0x02)?;
        bytes.push(0x90)?;
    }
    bytes.extend_from_slice(b"Hi")?;
    let image = parse_image(rt.alloc(), &bytes)?;
    let text = translation_text(rt.alloc(), &image)?;
    assert!(rt; text.as_str().starts_with(LINES));
    Ok(())
}
