//! Verdicts on images, by their digits and by their own bytes.

/// Right layouts, and each fault of a layout.
pub(super) const LAYOUTS: &str = "42 commands
$ sfi check; $ sfi check --raw
= smallest; > accepted sandboxes=1 bundles=16
= magic; put 0 53464933; > layout fault 1 Magic
= second format; put 0 53464932; > accepted sandboxes=1 bundles=16
= no sandbox; put 4 00000000; > layout fault 2 Count
= 17 sandboxes; put 4 11000000; > layout fault 2 Count
= less its last byte; cut 291; > layout fault 3 Short
= empty; cut 0; > layout fault 3 Short
= first data; put 32 00010000; end 292 256 07; > accepted sandboxes=1 bundles=16
= first data missing; put 32 00010000; > layout fault 3 Short
= half a pair, and less its last byte; put 36 b37fb50123a0bf00; cut 291; > layout fault 3 Short
= code of 257 bytes; put 12 01010000; > layout fault 4 Code
= data of 257 bytes; put 20 01010000; > layout fault 5 Data
= data at 0; put 16 00000000; > layout fault 6 GuardRoom
= data at the end; put 16 00ffffff; > layout fault 6 GuardRoom
= start in mid-bundle; put 24 04000001; > layout fault 7 Start
= 65 gates; put 28 41000000; > layout fault 8 Gates
= 257 first bytes; put 32 01010000; > layout fault 9 Init
= guards meet; put 4 02000000; end 292 1 00000002000100000020800100010000000000020000000000000000; end 320 64 73001000; > layout fault 10 Overlap
= guard meets code; put 4 02000000; end 292 1 00000002000100000010000200010000000000020000000000000000; end 320 64 73001000; > layout fault 10 Overlap
= two sandboxes; put 4 02000000; end 292 1 00000002000100000021800100010000000000020000000000000000; end 320 64 73001000
> accepted sandboxes=2 bundles=32
= one byte more; end 292 1 00; > layout fault 11 Trailing
";

/// Code that keeps each rule, and code that breaks it.
pub(super) const RULES: &str = "40 commands
$ sfi check; $ sfi check --raw
= masked store; put 36 b37fb501b3efaf0123a0bf00; > accepted sandboxes=1 bundles=16
= masked store in c.nops; put 36 0100b37fb501b3efaf0123a0bf000100; > accepted sandboxes=1 bundles=16
= half a pair; put 36 b37fb50123a0bf00; > refused findings=1 first=V5 sandbox=0 at=01000004
= pair across bundles; put 44 b37fb501b3efaf0123a0bf00; > refused findings=1 first=V5 sandbox=0 at=01000010
= pair on x0; put 36 3370b5013360a0012320b000; > refused findings=1 first=V5 sandbox=0 at=01000008
= jump back after a pair; put 36 b37fb501b3efaf0123a0bf00730010006ff09fff; > refused findings=1 first=V7 sandbox=0 at=01000010
= jalr with an offset; put 36 b37f9501b3ef8f0167800f01; > refused findings=1 first=V6 sandbox=0 at=01000008
= link in x26; put 36 6f0d0001; put 52 b37fb501b3efaf0123a0bf00; > refused findings=1 first=V4 sandbox=0 at=01000000
= jalr; put 36 67800000; > refused findings=1 first=V6 sandbox=0 at=01000000
= c.jr; put 36 82800290; > refused findings=1 first=V6 sandbox=0 at=01000000
= ecall across the end; put 36 01000100010001000100010001007300; > refused findings=1 first=V2 sandbox=0 at=0100000e
= branch at the end; put 288 e30a00fe; > refused findings=1 first=V8 sandbox=0 at=010000fc
= jal into a bundle; put 36 6f004000; > refused findings=1 first=V7 sandbox=0 at=01000000
= jal out of the code; put 288 6f004000; > refused findings=1 first=V7 sandbox=0 at=010000fc
= stub of no gate; put 36 73000000b3ff9001b3ef8f0167800f00; > refused findings=1 first=V3 sandbox=0 at=01000000
= stub of a gate; put 28 01000000; put 36 73000000b3ff9001b3ef8f0167800f00; insert 36 0000000100000000; > accepted sandboxes=1 bundles=16
= another stub; put 28 01000000; put 36 73000000b3ff9001b3ef8f0167800f01; insert 36 0000000100000000
> refused findings=1 first=V9 sandbox=0 at=01000000
= link in x27; put 36 ef0d0001; > refused findings=1 first=V4 sandbox=0 at=01000000
= zeros; end 36 256 00; > refused findings=16 first=V1 sandbox=0 at=01000000
= zeros in the second sandbox; put 4 02000000; end 292 1 00000002000100000021800100010000000000020000000000000000; end 320 256 00
> refused findings=16 first=V1 sandbox=1 at=02000000
";

/// Digits, and white space between them.
pub(super) const DIGITS: &str = "6 commands
source; $ sfi check
= odd; + 1 53464; > input fault hex odd
= odd before a wrong digit; + 1 5g3; > input fault hex odd
= white space is dropped before digits are counted; + 1  5\t3; bytes 0d0a; + 1 4 z; > input fault hex digit 3
= prefix; + 1 0x53; > input fault hex digit 1
= form feed; bytes 0c; + 1 5; > input fault hex digit 0
= digits of either case after a line feed, and each white space between them; |; + 1 5346493101000000000000010001000000008001; bytes 20090d0a200d
+ 1 00010000000000010000000000000000; + 1 B37FB501b3EFaf0123A0bF0073001000; + 60 73001000; > accepted sandboxes=1 bundles=16
";

/// Images as their own bytes, and what doesn't begin as one.
pub(super) const BYTES: &str = "21 commands
source; text hi
= checked; $ sfi build --raw | sfi check; $ sfi build --raw | sfi check --report; > accepted sandboxes=1 bundles=16
= run; $ sfi build --raw | sfi run; > sandbox=0 exit=105 steps=19 out=4869
= listed; as sfi build | sfi dis; $ sfi build --raw | sfi dis
= converted; as sfi build | sfi convert; $ sfi build --raw | sfi convert
= as C; as sfi build | sfi translate; $ sfi build --raw | sfi translate
= a magic alone; source; bytes 53464931; $ sfi check; $ sfi check --report; $ sfi dis; $ sfi run; $ sfi convert; > layout fault 3 Short
= that of the second format; source; bytes 53464932; $ sfi check; $ sfi dis; > layout fault 3 Short
= that of the third; source; bytes 53464957; $ sfi check; $ sfi dis; > layout fault 3 Short
= that of the fourth; source; bytes 53464953; $ sfi check; $ sfi dis; > layout fault 3 Short
= part of a magic; source; bytes 534649; $ sfi check; $ sfi dis; > input fault hex odd
= no format's magic; source; bytes 53464933; $ sfi check; > input fault hex digit 0
= white space before one; source; bytes 2053464931; $ sfi check; > input fault hex digit 0
";

/// Sandboxes that are refused although they are safe, by rules that are stricter than safety asks somewhere. Of V1, V2, V3
/// and V8 a theorem says so.
pub(super) const SAFE: &str = "6 commands
$ sfi check
= x24 written as it was; put 36 130c0c00; > refused findings=1 first=V4 sandbox=0 at=01000000; # addi x24, x24, 0
= a second store after a pair; put 36 b37fb501b3efaf0123a0bf0023a2cf00; # and x31, x10, x27, or x31, x31, x26, sw x11, 0(x31), sw x12, 4(x31)
> refused findings=1 first=V5 sandbox=0 at=0100000c
= a jump to the code base; put 36 67000c00; > refused findings=1 first=V6 sandbox=0 at=01000000; # jalr x0, 0(x24)
= a jump to an ebreak; put 36 6f004000; > refused findings=1 first=V7 sandbox=0 at=01000000; # jal x0, 4
= a gate that ends in a trap; put 28 01000000; put 36 73000000730010007300100073001000; insert 36 0000000100000000; # ecall, ebreak, ebreak, ebreak
> refused findings=1 first=V9 sandbox=0 at=01000000
= a stack pointer that is not used again; put 0 53464932; put 36 1301000073001000; # addi x2, x0, 0, ebreak
> refused findings=1 first=V10 sandbox=0 at=01000000
";

/// Such sandboxes of code in words. `c.ebreak` ends a run, so what stands behind it in its word is
/// never reached.
pub(super) const SAFE_WORDS: &str = "10 commands
put 0 53464957; $ sfi check
= an undecodable halfword after a c.ebreak; put 36 02900000; > refused findings=1 first=V1 sandbox=0 at=01000002
= a 32-bit instruction that begins after a c.ebreak; put 36 02900305; > refused findings=1 first=V2 sandbox=0 at=01000002
= x24 written as it was; put 36 130c0c00; > refused findings=1 first=V4 sandbox=0 at=01000000; # addi x24, x24, 0
= a store on a copy of the data base; put 36 6a8404c0; > refused findings=1 first=V5 sandbox=0 at=01000002; # c.mv x8, x26, c.sw x9, 0(x8)
= a jump to the code base; put 36 67000c00; > refused findings=1 first=V6 sandbox=0 at=01000000; # jalr x0, 0(x24)
= a jump to a second half; put 36 6f00600001000290; > refused findings=1 first=V7 sandbox=0 at=01000000; # jal x0, 6, c.nop, c.ebreak
= a last nop after a c.ebreak; put 288 02900100; > refused findings=1 first=V8 sandbox=0 at=010000fe
= a data register that is not used again; put 36 1301000073001000; > refused findings=1 first=V10 sandbox=0 at=01000004; # addi x2, x0, 0, ebreak
= a code register that is not used again; put 36 130f000073001000; > refused findings=1 first=V11 sandbox=0 at=01000000; # addi x30, x0, 0, ebreak
= an offset below the data size; put 36 930f0000; > refused findings=1 first=V12 sandbox=0 at=01000000; # addi x31, x0, 0
";

/// Code, data, first data bytes and gates at the limits of a layout, and one step beyond.
pub(super) const LIMITS: &str = "40 commands
$ sfi check; $ sfi check --raw
= code of 128 bytes, 128 there, in the first format; put 0 53464931; put 12 80000000; end 36 32 73001000; > layout fault 4 Code
= code of 65536 bytes, 65536 there, in the first format; put 0 53464931; put 12 00000100; end 36 16384 73001000; > accepted sandboxes=1 bundles=4096
= code of 65536 bytes, 256 there, in the first format; put 0 53464931; put 12 00000100; end 36 64 73001000; > layout fault 3 Short
= code of 131072 bytes, 131072 there, in the first format; put 0 53464931; put 12 00000200; end 36 32768 73001000; > layout fault 4 Code
= code of 1048576 bytes, 256 there, in the first format; put 0 53464931; put 12 00001000; end 36 64 73001000; > layout fault 4 Code
= code of 2097152 bytes, 256 there, in the first format; put 0 53464931; put 12 00002000; end 36 64 73001000; > layout fault 4 Code
= code of 128 bytes, 128 there, in the second format; put 0 53464932; put 12 80000000; end 36 32 73001000; > layout fault 4 Code
= code of 131072 bytes, 131072 there, in the second format; put 0 53464932; put 12 00000200; end 36 32768 73001000
> accepted sandboxes=1 bundles=8192
= code of 1048576 bytes, 1048576 there, in the second format; put 0 53464932; put 12 00001000; end 36 262144 73001000
> accepted sandboxes=1 bundles=65536
= code of 1048576 bytes, 256 there, in the second format; put 0 53464932; put 12 00001000; end 36 64 73001000; > layout fault 3 Short
= code of 2097152 bytes, 256 there, in the second format; put 0 53464932; put 12 00002000; end 36 64 73001000; > layout fault 4 Code
= data of 128 bytes; put 20 80000000; > layout fault 5 Data
= data of 1048576 bytes; put 20 00001000; > accepted sandboxes=1 bundles=16
= data of 2097152 bytes; put 20 00002000; > layout fault 5 Data
= data of 1048576 bytes, in the second format; put 0 53464932; put 20 00001000; > accepted sandboxes=1 bundles=16
= data of 2097152 bytes, in the second format; put 0 53464932; put 20 00002000; > layout fault 5 Data
= as many first bytes; put 20 00001000; put 32 00001000; end 292 1048576 07; > accepted sandboxes=1 bundles=16
= one more; put 20 00001000; put 32 01001000; end 292 1048577 07; > layout fault 9 Init
= 64 gates; put 12 00080000; put 28 40000000; cut 36; text digits of 64 gates; + 64 73000000b3ff9001b3ef8f0167800f00; + 256 73001000
> accepted sandboxes=1 bundles=128
= 65 gates; put 12 00080000; put 28 41000000; cut 36; text digits of 64 gates; + 1 0004000100000000; + 65 73000000b3ff9001b3ef8f0167800f00
+ 252 73001000; > layout fault 8 Gates
";

/// Code in the first format. The pair of the second is `and x2, x2, x27`, `or x2, x2, x26`.
pub(super) const FIRST: &str = "22 commands
$ sfi check; $ sfi check --raw
= written before the pair; put 36 130101ff3371b1013361a101; > accepted sandboxes=1 bundles=16
= written before the next bundle's pair; put 48 130101ff3371b1013361a101; > accepted sandboxes=1 bundles=16
= a nop before the pair; put 36 130101ff130000003371b1013361a101; > accepted sandboxes=1 bundles=16
= loaded before the pair; put 36 032101003371b1013361a101; > refused findings=1 first=V5 sandbox=0 at=01000000
= c.lwsp x2 before the pair; put 36 02413371b1013361a1010290; > refused findings=1 first=V5 sandbox=0 at=01000000
= c.lwsp x2; put 36 02410290; > refused findings=1 first=V5 sandbox=0 at=01000000
= jal x2 before the pair; put 36 6f0100013371b1013361a101; > accepted sandboxes=1 bundles=16
= half of the pair; put 36 3371b501; > accepted sandboxes=1 bundles=16
= masked before the pair; put 36 3371b5013371b1013361a101; > accepted sandboxes=1 bundles=16
= based before the pair; put 36 3361a1013371b1013361a101; > accepted sandboxes=1 bundles=16
= based twice; put 36 3371b5013361a1013361a101; > accepted sandboxes=1 bundles=16
";

/// The same code in the second format.
pub(super) const SECOND: &str = "22 commands
put 0 53464932; $ sfi check; $ sfi check --raw
= written before the pair; put 36 130101ff3371b1013361a101; > accepted sandboxes=1 bundles=16
= written before the next bundle's pair; put 48 130101ff3371b1013361a101; > refused findings=1 first=V10 sandbox=0 at=0100000c
= a nop before the pair; put 36 130101ff130000003371b1013361a101; > refused findings=1 first=V10 sandbox=0 at=01000000
= loaded before the pair; put 36 032101003371b1013361a101; > accepted sandboxes=1 bundles=16
= c.lwsp x2 before the pair; put 36 02413371b1013361a1010290; > accepted sandboxes=1 bundles=16
= c.lwsp x2; put 36 02410290; > refused findings=1 first=V10 sandbox=0 at=01000000
= jal x2 before the pair; put 36 6f0100013371b1013361a101; > refused findings=1 first=V10 sandbox=0 at=01000000
= half of the pair; put 36 3371b501; > refused findings=1 first=V10 sandbox=0 at=01000000
= masked before the pair; put 36 3371b5013371b1013361a101; > accepted sandboxes=1 bundles=16
= based before the pair; put 36 3361a1013371b1013361a101; > accepted sandboxes=1 bundles=16
= based twice; put 36 3371b5013361a1013361a101; > refused findings=1 first=V10 sandbox=0 at=01000008
";
