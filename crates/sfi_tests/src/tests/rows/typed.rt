//! Code in words: verdicts by the table of its rules in docs/IMAGE.md. An offset in the code is 36 more in the image, or 44
//! where a gate is listed.

/// Code that keeps the rules: V1 to V8, V10 in writes of data registers, V11 and V12 in those of x30 and x31.
pub(super) const KEPT: &str = "114 commands
put 0 53464957; > accepted sandboxes=1 bundles=16; $ sfi check; $ sfi check --raw
= smallest
= words and halves; put 36 01000100938212000100050473001000
= two halves at the end; put 288 01000290
= ecall at a gate; put 28 01000000; insert 36 0000000100000000; put 44 73000000
= ecall at a gate of another bundle; put 28 01000000; insert 36 1000000100000000; put 60 73000000
= a gate without an ecall; put 28 01000000; insert 36 0000000100000000
= x23 and x28 written; put 36 930b1500130e1500ef0b4000
= loads on each base; put 36 0325f17f03c50180031502000385de3f03553dc0
= stores on each base; put 36 a32fa17e2380a1802310a200a3aeae3ea301adc0
= c.lwsp and c.swsp; put 36 fe5086df
= jalr on x30; put 36 67000f00e7000f00028f029f
= jal to the next word; put 36 6f004000
= jal from the last word to the first; put 288 6ff05ff0
= c.j from a word's second half; put 36 010019a0
= branches to words; put 36 63866200e39e62fe11c00100
= jal at the end; put 288 eff0dfff
= jalr at the end; put 288 67000f00
= c.j at the end; put 288 0100fdbf
= c.jr at the end; put 288 0100028f
= placed; put 36 33e1af01b3e1af0133e2af01b3eeaf01
= written, masked and placed; put 36 3301b500b37fb10133e1af01
= loaded, masked and placed; put 36 83ae0e00b3ffbe01b3eeaf01
= loaded by c.lwsp; put 36 01002242b37fb20133e2af01
= written by c.li; put 36 01009541b3ffb101b3e1af01
= masked across 16 bytes; put 48 37510000b37fb10133e1af01
= placed across 16 bytes; put 44 37510000b37fb10133e1af01
= masked and placed before the end; put 276 01002a81b37fb10133e1af0173001000
= masked at a gate; put 28 01000000; insert 36 1000000100000000; put 56 3301b502b37fb10133e1af01
= placed before a gate; put 28 01000000; insert 36 1000000100000000; put 48 37510000b37fb10133e1af0173000000
= a step and a store; put 36 130101ff2320b100
= the largest step and offset; put 36 9381f17f83a5c13f
= the least step and offset; put 36 130202802302b2c0
= a step of 0; put 36 938e0e0083d51e00
= a step, masked and placed; put 36 130101ffb37fb10133e1af01
= c.addi and c.swsp; put 36 411106c6
= c.addi16sp and c.lwsp; put 36 7d61fe50
= c.addi in a second half; put 36 0100fd0123aeb13e
= a step across 16 bytes; put 48 130101ff2322b1c0
= c.addi across 16 bytes; put 48 0100411106c00100
= a step and a store before the end; put 280 130101012320b10073001000
= a step and a store before a gate; put 28 01000000; insert 36 1000000100000000; put 52 130101012320b10073000000
= a step before a gate's address; put 28 01000000; insert 36 1000000100000000; put 56 130101012320b100
= a load into its own base; put 36 1301410003210100b37fb10133e1af01
= a step and a store of x0; put 36 130101ff23200100
= loads into x0; put 36 0320010003000d0003d01100
= a load into x0 after its base is placed; put 36 130101ffb37fb10133e1af0103200100
= a load into x0 after the use of a step; put 36 130101ff0325010003200100
= masked and placed; put 36 337f9501336f8f0167000f00
= placed alone; put 36 336f8f0167000f00
= placed twice; put 36 337f9501336f8f01336f8f01
= masked by itself; put 36 337f9f01336f8f01
= placed across 16 bytes; put 48 337f9501336f8f01
= placed before the end; put 280 337f9501336f8f0167000f00
= placed at a gate's address; put 28 01000000; insert 36 1000000100000000; put 56 337f9501336f8f01
= the stub of a gate; put 28 01000000; insert 36 0000000100000000; put 44 7300000033ff9001336f8f0167000f00
= x31 masked; put 36 b37fb501b3ffbf01b3ffbd01
= x31 masked at the end of 16 bytes; put 48 b37fb501
";

/// Code that breaks one of the rules V1 to V8.
pub(super) const BROKEN: &str = "64 commands
put 0 53464957; $ sfi check; $ sfi check --raw
= no instruction in a second half; put 36 01000000; > refused findings=1 first=V1 sandbox=0 at=01000002
= a longer instruction's first half; put 48 1f000100; > refused findings=1 first=V1 sandbox=0 at=0100000c
= zeros; end 36 256 00; > refused findings=64 first=V1 sandbox=0 at=01000000
= a word from a second half on; put 36 01007300; > refused findings=1 first=V2 sandbox=0 at=01000002
= a word from a bundle's last half on; put 48 01007300; > refused findings=1 first=V2 sandbox=0 at=0100000e
= a word from the region's last half on; put 288 01007300; > refused findings=1 first=V2 sandbox=0 at=010000fe
= ecall after a gate's first word; put 28 01000000; insert 36 0000000100000000; put 48 73000000; > refused findings=1 first=V3 sandbox=0 at=01000004
= ecall beside a gate's bundle; put 28 01000000; insert 36 0000000100000000; put 60 73000000; > refused findings=1 first=V3 sandbox=0 at=01000010
= x24 written as it was; put 36 130c0c00; > refused findings=1 first=V4 sandbox=0 at=01000000
= x25 linked; put 36 ef0c4000; > refused findings=1 first=V4 sandbox=0 at=01000000
= x26 loaded; put 36 024d0100; > refused findings=1 first=V4 sandbox=0 at=01000000
= x27 moved; put 36 0100aa8d; > refused findings=1 first=V4 sandbox=0 at=01000002
= store on x28; put 36 2320be00; > refused findings=1 first=V5 sandbox=0 at=01000000
= load on x0; put 36 83254000; > refused findings=1 first=V5 sandbox=0 at=01000000
= load on x30; put 36 83450f00; > refused findings=1 first=V5 sandbox=0 at=01000000
= store on x27; put 36 2380bd00; > refused findings=1 first=V5 sandbox=0 at=01000000
= c.lw; put 36 01008040; > refused findings=1 first=V5 sandbox=0 at=01000002
= jalr on x30 with an offset below 0; put 36 6700cfff; > refused findings=1 first=V6 sandbox=0 at=01000000
= c.jalr on x31; put 36 829f0100; > refused findings=1 first=V6 sandbox=0 at=01000000
= jal into a word; put 36 6f006000; > refused findings=1 first=V7 sandbox=0 at=01000000
= jal into itself; put 36 6f002000; > refused findings=1 first=V7 sandbox=0 at=01000000
= jal below the code; put 36 6ff0dfff; > refused findings=1 first=V7 sandbox=0 at=01000000
= jal past the end; put 288 6f004000; > refused findings=1 first=V7 sandbox=0 at=010000fc
= branch into a word; put 40 e3ef62fe; > refused findings=1 first=V7 sandbox=0 at=01000004
= branch past the end; put 276 63d86200; > refused findings=1 first=V7 sandbox=0 at=010000f0
= c.j into a word; put 36 09a00100; > refused findings=1 first=V7 sandbox=0 at=01000000
= c.beqz from a second half; put 36 010011c0; > refused findings=1 first=V7 sandbox=0 at=01000002
= jal into a neighbour; put 4 02000000; end 292 1 00010001000100000021800100010000000100010000000000000000; end 320 64 73001000; put 36 6f000010; > refused findings=1 first=V7 sandbox=0 at=01000000
= branch at the end; put 288 e30a00fe; > refused findings=1 first=V8 sandbox=0 at=010000fc
= a computation at the end; put 288 93821200; > refused findings=1 first=V8 sandbox=0 at=010000fc
= a half at the end; put 288 02900100; > refused findings=1 first=V8 sandbox=0 at=010000fe
= a gate's ecall isn't the end; put 28 01000000; insert 36 f000000100000000; put 284 73000000938212009382120093821200; > refused findings=1 first=V8 sandbox=0 at=010000fc
";

/// Writes of data registers that break V10.
pub(super) const DATA_BROKEN: &str = "50 commands
put 0 53464957; $ sfi check; $ sfi check --raw
= written; put 36 130100002320b100; > refused findings=1 first=V10 sandbox=0 at=01000004
= written by c.li; put 36 014106c0; > refused findings=1 first=V10 sandbox=0 at=01000002
= written by c.mv; put 36 aa8e0100; > refused findings=1 first=V10 sandbox=0 at=01000002
= loaded by c.lwsp; put 36 01008241; > refused findings=1 first=V10 sandbox=0 at=01000004
= each of the others; put 36 b7110000010001003712000001000100b71e0000; > refused findings=3 first=V10 sandbox=0 at=01000004
= placed by itself; put 36 37510000b37fb1013361a101; > refused findings=2 first=V10 sandbox=0 at=01000008
= placed the other way round; put 36 3361fd01; > refused findings=1 first=V10 sandbox=0 at=01000004
= another is masked; put 36 37510000b3ffb10133e1af01; > refused findings=1 first=V10 sandbox=0 at=01000004
= another is placed; put 36 37510000b37fb101b3e1af01; > refused findings=1 first=V10 sandbox=0 at=01000008
= masked the other way round; put 36 37510000b3ff2d0033e1af01; > refused findings=1 first=V10 sandbox=0 at=01000004
= masked by x25; put 36 37510000b37f910133e1af01; > refused findings=1 first=V10 sandbox=0 at=01000004
= masked one later; put 36 3751000013000000b37fb10133e1af01; > refused findings=1 first=V10 sandbox=0 at=01000004
= placed one later; put 36 37510000b37fb1011300000033e1af01; > refused findings=1 first=V10 sandbox=0 at=01000008
= a branch between; put 36 37510000b37fb1016382620033e1af01; > refused findings=1 first=V10 sandbox=0 at=01000008
= jal writes; put 36 6f014000b37fb10133e1af01; > refused findings=1 first=V10 sandbox=0 at=01000000
= jal writes x4; put 36 6f024000b37fb20133e2af01; > refused findings=1 first=V10 sandbox=0 at=01000000
= jalr writes; put 36 e70e0f00b3ffbe01b3eeaf01; > refused findings=1 first=V10 sandbox=0 at=01000000
= jal writes at the end; put 288 eff1dfff; > refused findings=1 first=V10 sandbox=0 at=010000fc
= written twice; put 36 3751000037610000b37fb10133e1af01; > refused findings=1 first=V10 sandbox=0 at=01000004
= not masked across 16 bytes; put 48 37510000; > refused findings=1 first=V10 sandbox=0 at=01000010
= not placed across 16 bytes; put 44 37510000b37fb101; > refused findings=1 first=V10 sandbox=0 at=01000010
= not masked before the end; put 284 37510000; > refused findings=1 first=V10 sandbox=0 at=010000fc
= not placed before the end; put 280 37510000b37fb101; > refused findings=1 first=V10 sandbox=0 at=010000fc
= not masked at a gate; put 28 01000000; insert 36 1000000100000000; put 56 3751000073000000; > refused findings=1 first=V10 sandbox=0 at=01000010
= not placed at a gate; put 28 01000000; insert 36 1000000100000000; put 52 37510000b37fb10173000000; > refused findings=1 first=V10 sandbox=0 at=01000010
";

/// Steps of data registers that break V10, or a lower rule.
pub(super) const STEPS: &str = "58 commands
put 0 53464957; $ sfi check; $ sfi check --raw
= a store at 1021; put 36 130101ffa32eb13e; > refused findings=1 first=V10 sandbox=0 at=01000004
= a store at -1021; put 36 130101ffa321b1c0; > refused findings=1 first=V10 sandbox=0 at=01000004
= a load at 1021; put 36 938e0eff8385de3f; > refused findings=1 first=V10 sandbox=0 at=01000004
= a load at -1021; put 36 938e0eff83a53ec0; > refused findings=1 first=V10 sandbox=0 at=01000004
= 1021 after c.addi; put 36 0100850183c5d13f; > refused findings=1 first=V10 sandbox=0 at=01000004
= 1021 across 16 bytes; put 48 9381110083c5d13f; > refused findings=1 first=V10 sandbox=0 at=01000010
= 1021 before the end; put 280 9381110083c5d13f73001000; > refused findings=1 first=V10 sandbox=0 at=010000f8
= 1021 at a gate's address; put 28 01000000; insert 36 1000000100000000; put 56 9381110083c5d13f; > refused findings=1 first=V10 sandbox=0 at=01000010
= no use in the word; put 36 41110100; > refused findings=1 first=V10 sandbox=0 at=01000002
= no use across 16 bytes; put 48 01004111; > refused findings=1 first=V10 sandbox=0 at=01000010
= no use before the end; put 284 01004111; > refused findings=1 first=V10 sandbox=0 at=010000fc
= no use before a gate; put 28 01000000; insert 36 1000000100000000; put 56 1301010173000000; > refused findings=1 first=V10 sandbox=0 at=01000010
= a step at the end; put 288 13010101; > refused findings=1 first=V8 sandbox=0 at=010000fc
= c.addi at the end; put 288 01004101; > refused findings=1 first=V8 sandbox=0 at=010000fe
= another is used; put 36 1301010123a0b100; > refused findings=1 first=V10 sandbox=0 at=01000004
= the stored register; put 36 1301010123a02100; > refused findings=1 first=V10 sandbox=0 at=01000004
= from another register; put 36 138101012320b100; > refused findings=1 first=V10 sandbox=0 at=01000004
= a step by a register; put 36 3301a1002320b100; > refused findings=1 first=V10 sandbox=0 at=01000004
= an andi; put 36 137101ff2320b100; > refused findings=1 first=V10 sandbox=0 at=01000004
= two steps; put 36 13010101130101012320b100; > refused findings=1 first=V10 sandbox=0 at=01000004
= a step after a write; put 36 37510000130101012320b100; > refused findings=1 first=V10 sandbox=0 at=01000004
= used one later; put 36 13010101010001002320b100; > refused findings=1 first=V10 sandbox=0 at=01000004
= a load into its own base; put 36 1301410003210100; > refused findings=1 first=V10 sandbox=0 at=01000008
= a load into x0; put 36 130101ff03200100; > refused findings=1 first=V10 sandbox=0 at=01000004
= each other load into x0; put 36 938141000380c13f13024200031042c0938e0eff03c00e009381110003d0f1ff; > refused findings=4 first=V10 sandbox=0 at=01000004
= a load into x0 after c.addi; put 36 0100411103200100; > refused findings=1 first=V10 sandbox=0 at=01000004
= a load into x0 across 16 bytes; put 48 9381110003a00100; > refused findings=1 first=V10 sandbox=0 at=01000010
= a load into x0 before the end; put 280 9381110003a0010073001000; > refused findings=1 first=V10 sandbox=0 at=010000f8
= placed without a mask; put 36 1301410033e1af01; > refused findings=1 first=V10 sandbox=0 at=01000004
";

/// Writes of x30 and x31 that break V11, V12 or a lower rule; the lowest rule is found at a place, and what is broken owes no
/// more.
pub(super) const OTHERS_BROKEN: &str = "72 commands
put 0 53464957; $ sfi check; $ sfi check --raw
= x30 written; put 36 130f000067000f00; > refused findings=1 first=V11 sandbox=0 at=01000000
= x30 written by c.mv; put 36 01002a8f; > refused findings=1 first=V11 sandbox=0 at=01000002
= x30 loaded by c.lwsp; put 36 024f0100; > refused findings=1 first=V11 sandbox=0 at=01000000
= x30 linked; put 36 6f0f4000; > refused findings=1 first=V11 sandbox=0 at=01000000
= x30 masked; put 36 337f9501; > refused findings=1 first=V11 sandbox=0 at=01000004
= x30 masked the other way round; put 36 33ffac00336f8f01; > refused findings=1 first=V11 sandbox=0 at=01000000
= x30 masked by x27; put 36 337fb501336f8f01; > refused findings=1 first=V11 sandbox=0 at=01000000
= x30 placed the other way round; put 36 336fec01; > refused findings=1 first=V11 sandbox=0 at=01000000
= x30 placed from another; put 36 336f8501; > refused findings=1 first=V11 sandbox=0 at=01000000
= x30 placed by x26; put 36 337f9501336faf01; > refused findings=1 first=V11 sandbox=0 at=01000004
= x30 placed one later; put 36 337f950113000000336f8f01; > refused findings=1 first=V11 sandbox=0 at=01000004
= x30 masked twice; put 36 337f9501337f9501336f8f01; > refused findings=1 first=V11 sandbox=0 at=01000004
= x30 not placed across 16 bytes; put 48 337f9501; > refused findings=1 first=V11 sandbox=0 at=01000010
= x30 not placed before the end; put 284 337f9501; > refused findings=1 first=V11 sandbox=0 at=010000fc
= x30 masked at the end; put 288 337f9501; > refused findings=1 first=V8 sandbox=0 at=010000fc
= x30 not placed at a gate; put 28 01000000; insert 36 1000000100000000; put 56 337f950173000000; > refused findings=1 first=V11 sandbox=0 at=01000010
= x31 written; put 36 930ff0ff33e1af012320b100; > refused findings=1 first=V12 sandbox=0 at=01000000
= x31 written by c.li; put 36 0100fd5f; > refused findings=1 first=V12 sandbox=0 at=01000002
= x31 loaded by c.lwsp; put 36 824f0100; > refused findings=1 first=V12 sandbox=0 at=01000000
= x31 linked; put 36 ef0f4000; > refused findings=1 first=V12 sandbox=0 at=01000000
= x31 masked by x25; put 36 b37f9501; > refused findings=1 first=V12 sandbox=0 at=01000000
= x31 placed; put 36 b37fb501b3efaf01; > refused findings=1 first=V12 sandbox=0 at=01000004
= V3 before V10; put 36 3751000073000000; > refused findings=1 first=V3 sandbox=0 at=01000004
= V4 before V10; put 36 37510000375c0000; > refused findings=1 first=V4 sandbox=0 at=01000004
= V5 before V10; put 36 1301010123a0b200; > refused findings=1 first=V5 sandbox=0 at=01000004
= V6 before V11; put 36 337f950167800200; > refused findings=1 first=V6 sandbox=0 at=01000004
= V7 before V10; put 36 375100006f002000; > refused findings=1 first=V7 sandbox=0 at=01000004
= V10 before V11; put 36 37510000130f0000; > refused findings=1 first=V10 sandbox=0 at=01000004
= V10 before V12; put 36 37510000930f0000; > refused findings=1 first=V10 sandbox=0 at=01000004
= V11 before V12; put 36 337f9501930f0000; > refused findings=1 first=V11 sandbox=0 at=01000004
= V11 and then V10; put 36 337f950137510000; > refused findings=2 first=V11 sandbox=0 at=01000004
= nothing is owed after V1; put 36 3751000000000000; > refused findings=1 first=V1 sandbox=0 at=01000004
= nothing is owed after V1 in a second half; put 36 15410000; > refused findings=1 first=V1 sandbox=0 at=01000002
= nothing is owed after V2; put 36 15417300; > refused findings=1 first=V2 sandbox=0 at=01000002
= nothing is owed after the end; put 4 02000000; end 292 1 00000002000100000021800100010000000000020000000000000000; end 320 64 73001000; put 288 13010101; > refused findings=1 first=V8 sandbox=0 at=010000fc
= x30 isn't owed after the end; put 4 02000000; end 292 1 00000002000100000021800100010000000000020000000000000000; end 320 64 73001000; put 288 337f9501; > refused findings=1 first=V8 sandbox=0 at=010000fc
";

/// Layouts, and larger regions.
pub(super) const LAYOUTS: &str = "28 commands
put 0 53464957; $ sfi check; $ sfi check --raw
= start in a bundle; put 24 04000001; > layout fault 7 Start
= a gate in a bundle; put 28 01000000; insert 36 0400000100000000; > layout fault 8 Gates
= less its last byte; cut 291; > layout fault 3 Short
= code of 128 bytes; put 12 80000000; end 36 32 73001000; > layout fault 4 Code
= code of 131072 bytes; put 12 00000200; end 36 32768 73001000; > accepted sandboxes=1 bundles=8192
= code of 1048576 bytes; put 12 00001000; end 36 262144 73001000; > accepted sandboxes=1 bundles=65536
= code of 16777216 bytes, 256 there; put 12 00000001; put 16 00000003; > layout fault 3 Short
= code of 33554432 bytes; put 8 00000002; put 12 00000002; put 16 00000006; put 24 00000002; > layout fault 4 Code
= data of 128 bytes; put 20 80000000; > layout fault 5 Data
= data of 1073741824 bytes; put 16 00000040; put 20 00000040; > accepted sandboxes=1 bundles=16
= data of 1073741824 bytes, the last of all; put 16 000000c0; put 20 00000040; > layout fault 6 GuardRoom
= data of 2147483648 bytes; put 16 00000080; put 20 00000080; > layout fault 5 Data
= x2 owed at each 16 bytes' end; put 12 00200000; end 36 512 2320b100938212009382120013014100; put 8212 2320b100730010007300100073001000; > accepted sandboxes=1 bundles=512
= x2 owed and not used; put 12 00200000; end 36 512 93821200938212009382120013014100; put 8212 73001000730010007300100073001000; > refused findings=511 first=V10 sandbox=0 at=01000010
";

/// Runs.
pub(super) const RUNS: &str = "32 commands
put 0 53464957; $ sfi run; $ sfi run --rounds 1000 --quantum 1
= smallest; > sandbox=0 trap=Break at=01000000 steps=0 out=
= a second bundle's start; put 24 10000001; > sandbox=0 trap=Break at=01000010 steps=0 out=
= a store past the data; put 36 2328a100; > sandbox=0 trap=Store at=01800100 steps=0 out=
= a load below the data; put 36 03a5c1ff; > sandbox=0 trap=Load at=017ffffc steps=0 out=
= stores at both ends of the data; put 36 a30fad0e2300a200; > sandbox=0 trap=Break at=01000008 steps=2 out=
= the farthest below; put 36 938e0e802382aec0; > sandbox=0 trap=Store at=017ff404 steps=1 out=
= the farthest above; put 36 1302f27f232ea23e; > sandbox=0 trap=Store at=01800bfb steps=1 out=
= x2 masked and placed; put 36 1301f0ffb37fb10133e1af01a3000100; > sandbox=0 trap=Store at=01800100 steps=3 out=
= x31 is 0; put 36 33e1af010305f1ff; > sandbox=0 trap=Load at=017fffff steps=1 out=
= a jump to the last word; put 36 1305f0ff337f9501336f8f0167000f00; > sandbox=0 trap=Break at=010000fc steps=4 out=
= a jump to a second word; put 36 13057001337f9501336f8f0167000f00; > sandbox=0 trap=Break at=01000014 steps=4 out=
= x30 is the start; put 24 10000001; put 36 0100010073001000; put 52 63040400730010001304140067000f00; > sandbox=0 trap=Break at=01000014 steps=4 out=
= two letters; put 24 20000001; put 28 0200000002000000; insert 36 00000001010000001000000100000000; put 52 7300000033ff9001336f8f0167000f007300000033ff9001336f8f0167000f0013050d0093052000eff09ffdeff05ffe; end 308 1 4869; > sandbox=0 exit=2 steps=9 out=4869
= a gate in other code; put 28 01000000; insert 36 1000000100000000; put 44 1305700093821200938212009382120073000000; > sandbox=0 exit=7 steps=5 out=
= a store on x28; put 36 2320be00; > refused findings=1 first=V5 sandbox=0 at=01000000
= a neighbour; put 4 02000000; end 292 1 00000002000100000021800100010000000000020000000000000000; end 320 64 73001000; put 36 23a0a100
> sandbox=0 trap=Break at=01000004 steps=1 out=; > sandbox=1 trap=Break at=02000000 steps=0 out=
";

/// What `run --report` prints after the lines of a run: the registers at an entry, and after a step.
pub(super) const STATES: &str = "2 commands
put 0 53464957; $ sfi run --report
= at an entry; put 24 10000001; > sandbox=0 trap=Break at=01000010 steps=0 out=; > sandbox=0 pc=01000010 00100073 ebreak
> x1=00000000 x2=018000f0 x3=01800000 x4=01800000 x5=00000000 x6=00000000 x7=00000000
> x8=00000000 x9=00000000 x10=00000000 x11=00000000 x12=00000000 x13=00000000 x14=00000000 x15=00000000
> x16=00000000 x17=00000000 x18=00000000 x19=00000000 x20=00000000 x21=00000000 x22=00000000 x23=00000000
> x24=01000000 x25=000000fc x26=01800000 x27=000000ff x28=00000000 x29=01800000 x30=01000010 x31=00000000
= after a step; put 36 130101ff232ea13e; > sandbox=0 trap=Store at=018004dc steps=1 out=; > sandbox=0 pc=01000004 3ea12e23 sw x10, 1020(x2)
> x1=00000000 x2=018000e0 x3=01800000 x4=01800000 x5=00000000 x6=00000000 x7=00000000
> x8=00000000 x9=00000000 x10=00000000 x11=00000000 x12=00000000 x13=00000000 x14=00000000 x15=00000000
> x16=00000000 x17=00000000 x18=00000000 x19=00000000 x20=00000000 x21=00000000 x22=00000000 x23=00000000
> x24=01000000 x25=000000fc x26=01800000 x27=000000ff x28=00000000 x29=01800000 x30=01000000 x31=00000000
";
