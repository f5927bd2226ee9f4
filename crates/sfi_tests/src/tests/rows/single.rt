//! The fourth format: code in words whose masks are single. Verdicts, runs and builds by docs/IMAGE.md and docs/SOURCE.md. The
//! encodings are the GNU assembler's. Data lie at 80000000, a single bit, so that the zone at zero has 4352 addresses.

/// Code that keeps the rules.
pub(super) const KEPT: &str = "38 commands
put 0 53464953; put 16 00000080; > accepted sandboxes=1 bundles=16; $ sfi check; $ sfi check --raw
= a mask of each data register; put 36 3371b501b371b5013372b501b37eb501337db501b37fb501
= written and masked; put 36 3301b5003371b101
= x26 loaded and masked; put 36 032d0d00337dbd01
= x26 written by c.mv; put 36 01002a8d337dbd01
= x31 written and masked; put 36 930ff0ffb3ffbf01
= x31 loaded by c.lwsp; put 36 0100824fb3ffbf01
= x31 written by c.li; put 36 0100954fb3ffbf01
= masked across 16 bytes; put 48 130d0000337dbd01
= masked before the end; put 280 930f0000b3ffbf0173001000
= masked before a gate; put 28 01000000; insert 36 1000000100000000; put 52 3301b5003371b10173000000
= masked at a gate's address; put 28 01000000; insert 36 1000000100000000; put 56 3301b5003371b101
= loads and stores on x26 and x31; put 36 03250d0003a54f002320ad002382bfc0
= a step of x26 and a load at 1020; put 36 130d0d010305cd3f
= a step of x31 and a store at -1020; put 36 938f0fff23a2afc0
= a step of x31 and a store at 1020; put 36 938f4f00239ebf3e
= a step, masked; put 36 130d0d01337dbd01
= c.addi, masked; put 36 0100f11fb3ffbf01
= masked twice; put 36 337db501337dbd01
= x30 masked and placed; put 36 337f9501336f8f0167000f00
";

/// Code that breaks a rule. None writes x31 wrongly by V12, or x26 by V4.
pub(super) const BROKEN: &str = "72 commands
put 0 53464953; put 16 00000080; $ sfi check; $ sfi check --raw
= load on x0; put 36 03250000; > refused findings=1 first=V5 sandbox=0 at=01000000
= load on x5; put 36 03a50200; > refused findings=1 first=V5 sandbox=0 at=01000000
= load on x30; put 36 03250f00; > refused findings=1 first=V5 sandbox=0 at=01000000
= load on x24; put 36 03250c00; > refused findings=1 first=V5 sandbox=0 at=01000000
= load on x27; put 36 03a50d00; > refused findings=1 first=V5 sandbox=0 at=01000000
= x24 written as it was; put 36 130c0c00; > refused findings=1 first=V4 sandbox=0 at=01000000
= x27 written as it was; put 36 938d0d00; > refused findings=1 first=V4 sandbox=0 at=01000000
= x27 masked; put 36 b37db501; > refused findings=1 first=V4 sandbox=0 at=01000000
= x26 written; put 36 130d5000; > refused findings=1 first=V10 sandbox=0 at=01000004
= x26 written by c.mv; put 36 01002a8d; > refused findings=1 first=V10 sandbox=0 at=01000004
= x26 loaded, and used; put 36 032d0d002320bd00; > refused findings=1 first=V10 sandbox=0 at=01000004
= x31 written; put 36 930ff0ff; > refused findings=1 first=V10 sandbox=0 at=01000004
= x31 written by c.li; put 36 954f0100; > refused findings=1 first=V10 sandbox=0 at=01000002
= x31 linked; put 36 ef0f4000; > refused findings=1 first=V10 sandbox=0 at=01000000
= jal writes x26; put 36 6f0d4000; > refused findings=1 first=V10 sandbox=0 at=01000000
= jalr writes x31; put 36 e70f0f00; > refused findings=1 first=V10 sandbox=0 at=01000000
= masked by x26; put 36 3371a501; > refused findings=1 first=V10 sandbox=0 at=01000004
= x31 masked by x26; put 36 b37fa501; > refused findings=1 first=V10 sandbox=0 at=01000004
= masked by x25; put 36 337d9501; > refused findings=1 first=V10 sandbox=0 at=01000004
= masked the other way round; put 36 33fdad00; > refused findings=1 first=V10 sandbox=0 at=01000004
= placed as in the third format; put 36 33e1af01; > refused findings=1 first=V10 sandbox=0 at=01000004
= masked into another register; put 36 3301b500b371b101; > refused findings=1 first=V10 sandbox=0 at=01000004
= masked one later; put 36 3301b500130000003371b101; > refused findings=1 first=V10 sandbox=0 at=01000004
= not masked across 16 bytes; put 48 130d5000; > refused findings=1 first=V10 sandbox=0 at=01000010
= not masked before the end; put 284 930f0000; > refused findings=1 first=V10 sandbox=0 at=010000fc
= not masked at a gate; put 28 01000000; insert 36 1000000100000000; put 56 130d500073000000; > refused findings=1 first=V10 sandbox=0 at=01000010
= a load at 1021 after a step; put 36 130d0d010305dd3f; > refused findings=1 first=V10 sandbox=0 at=01000004
= a store at 1021 after a step; put 36 938f0fffa3aeaf3e; > refused findings=1 first=V10 sandbox=0 at=01000004
= a store at -1021 after a step; put 36 938f0fffa3a1afc0; > refused findings=1 first=V10 sandbox=0 at=01000004
= a load into x0 after a step; put 36 130d0d0103200d00; > refused findings=1 first=V10 sandbox=0 at=01000004
= another is used after a step; put 36 130d0d012320b100; > refused findings=1 first=V10 sandbox=0 at=01000004
= a step from another register; put 36 130d01012320bd00; > refused findings=1 first=V10 sandbox=0 at=01000004
= x26 and x31 written; put 36 130d5000930ff0ff; > refused findings=2 first=V10 sandbox=0 at=01000004
= V4 before V10; put 36 130d5000938d0d00; > refused findings=1 first=V4 sandbox=0 at=01000004
= V5 before V10; put 36 130d0d0103a50200; > refused findings=1 first=V5 sandbox=0 at=01000004
= x30 masked by x27; put 36 337fb501336f8f01; > refused findings=1 first=V11 sandbox=0 at=01000000
";

/// Layouts: bases of data, zones at zero.
pub(super) const LAYOUTS: &str = "40 commands
put 0 53464953; put 16 00000080; $ sfi check; $ sfi check --raw
= smallest; > accepted sandboxes=1 bundles=16
= data base of two bits; put 16 000000c0; > layout fault 5 Data
= data at 0; put 16 00000000; > layout fault 5 Data
= data base below the size; put 16 00001000; put 20 00002000; > layout fault 5 Data
= data of 2147483648 bytes; put 20 00000080; > layout fault 5 Data
= data in their own zone at zero; put 16 00100000; > layout fault 6 GuardRoom
= a guard zone of data in it; put 16 00200000; > layout fault 10 Overlap
= data above it; put 16 00400000; > accepted sandboxes=1 bundles=16
= data as large as their base; put 16 00000040; put 20 00000040; > layout fault 6 GuardRoom
= code in its own zone at zero; put 8 00100000; put 24 00100000; > layout fault 6 GuardRoom
= code above it; put 8 00110000; put 24 00110000; > accepted sandboxes=1 bundles=16
= code in the last addresses; put 8 00f0ffff; put 24 00f0ffff; > layout fault 6 GuardRoom
= code below them; put 8 00efffff; put 24 00efffff; > accepted sandboxes=1 bundles=16
= code in the zone of 1073741824 bytes; put 8 000f0040; put 20 00000040; put 24 000f0040; > layout fault 6 GuardRoom
= code above it; put 8 00100040; put 20 00000040; put 24 00100040; > accepted sandboxes=1 bundles=16
= two sandboxes; put 4 02000000; end 292 1 00000002000100000000004000010000000000020000000000000000; end 320 64 73001000; > accepted sandboxes=2 bundles=32
= code in the first's zone; put 8 00000003; put 20 00000002; put 24 00000003; put 4 02000000; end 292 1 00000002000100000000004000010000000000020000000000000000; end 320 64 73001000; > layout fault 10 Overlap
= a guard zone in the first's zone; put 8 00000003; put 20 00000002; put 24 00000003; put 4 02000000; end 292 1 00000004000100000000000200010000000000040000000000000000; end 320 64 73001000; > layout fault 10 Overlap
= a zone that meets the first's code; put 4 02000000; end 292 1 00000002000100000000004000000001000000020000000000000000; end 320 64 73001000; > layout fault 10 Overlap
= start in a bundle; put 24 04000001; > layout fault 7 Start
";

/// Runs.
pub(super) const RUNS: &str = "18 commands
put 0 53464953; put 16 00000080; $ sfi run; $ sfi run --rounds 1000 --quantum 1
= 0 is masked; put 36 b37eb00103a50e00; > sandbox=0 trap=Load at=00000000 steps=1 out=
= x31 is 0; put 36 23a00f00; > sandbox=0 trap=Store at=00000000 steps=0 out=
= below 0; put 36 03a5cfff; > sandbox=0 trap=Load at=fffffffc steps=0 out=
= the farthest below it; put 36 938f0f8023a2afc0; > sandbox=0 trap=Store at=fffff404 steps=1 out=
= far above it; put 36 938fff7f23aeaf3e; > sandbox=0 trap=Store at=00000bfb steps=1 out=
= a number without the base's bit; put 36 3755341213058567b37eb50123a00e00; > sandbox=0 trap=Store at=00000078 steps=3 out=
= a number with it; put 36 3705008013054523b37eb50123a00e00; > sandbox=0 trap=Break at=01000010 steps=4 out=
= on x26; put 36 2320ad0003250d00; > sandbox=0 trap=Break at=01000008 steps=2 out=
= past the data; put 36 2320ad10; > sandbox=0 trap=Store at=80000100 steps=0 out=
";

/// What the other commands answer, and the state at an entry.
pub(super) const ANSWERS: &str = "13 commands
put 0 53464953; put 16 00000080
= listed; put 36 337db501; $ sfi dis
> format SFIS; > sandbox 0 code 01000000 256 data 80000000 256 start 01000000 gates 0 init 0; > 01000000 01b57d33 and x26, x10, x27
> 01000004 00100073 ebreak; ..
= reported; put 36 130d5000; $ sfi check --report; > 0 01000004 V10 data ebreak; > refused findings=1 first=V10 sandbox=0 at=01000004
= converted; $ sfi convert; > convert fault 5 Words
= with a finding; put 36 130d5000; $ sfi convert; $ sfi native; $ sfi translate; > refused findings=1 first=V10 sandbox=0 at=01000004
= cut short; cut 40; $ sfi convert; $ sfi native; > layout fault 3 Short
= translated; $ sfi translate
> #include \"sfi_native.h\"; > SANDBOX_SINGLE(0,4,01000000,256,80000000,256,01000000,0,0); > DATA(0,0); > FUNCTION(0,01000000); ..; >; > EBREAK(010000fc,4); > LAST
= moved; $ sfi move --at 20500000:40000000
>+ 1 534649530100000000005020000100000000004000010000000050200000000000000000; >+ 64 73001000; >
= moved to a base of two bits, and into the zone at zero; $ sfi move --at 20500000:c0000000; $ sfi move --at 1000:40000000; > move fault 3 NoPlace
= the state at an entry; $ sfi run --report; > sandbox=0 trap=Break at=01000000 steps=0 out=; > sandbox=0 pc=01000000 00100073 ebreak
> x1=00000000 x2=800000f0 x3=80000000 x4=80000000 x5=00000000 x6=00000000 x7=00000000
> x8=00000000 x9=00000000 x10=00000000 x11=00000000 x12=00000000 x13=00000000 x14=00000000 x15=00000000
> x16=00000000 x17=00000000 x18=00000000 x19=00000000 x20=00000000 x21=00000000 x22=00000000 x23=00000000
> x24=01000000 x25=000000fc x26=80000000 x27=800000ff x28=00000000 x29=80000000 x30=01000000 x31=00000000
";

/// What each load, store, jump and write becomes.
pub(super) const EXPANSIONS: &str = "8 commands
source; | .format single; | .sandbox 256; $ sfi build; >+ 1 534649530100000000008001000100000000008000010000000080010000000000000000
= on each data register; | lw a0, 4(sp); | sb a1, -1(gp); | lhu a2, 2047(tp); >+ 1 03254100a38fb1fe0356f27f; >+ 122 0290; >
= on x0; | lw a0, 4(zero); >+ 1 b37eb00103a54e00; >+ 124 0290; >
= on any other register; | lw a0, 4(a1); | sh a2, -2(t3); >+ 1 b3feb50103a54e00b37ebe01239fcefe; >+ 120 0290; >
= a write of each data register; | addi sp, sp, -16; | add gp, gp, a0; | lui tp, 4096; >+ 1 130101ff3371b101b381a100b3f1b101370200013372b201; >+ 116 0290; >
= a load of a data register, on one and on another; | lw gp, 8(sp); | lw sp, 0(a0); >+ 1 83218100b3f1b101b37eb50103a10e003371b101; >+ 118 0290; >
= a move to a data register; | mv sp, a0; | mv gp, sp; | add tp, x0, a1; | li tp, 0; | add gp, a0, x0; >+ 1 3371b501b371b10133f2b5013372b001b3010500b3f1b101; >+ 116 0290; >
= indirect jumps; | jalr ra, 0(a0); | jr sp; | ret; >+ 1 337f9501336f8f01e7000f00337f9101336f8f0167000f0033ff9001336f8f0167000f00; >+ 110 0290; >
= a step at its bound, and beyond it; | addi tp, tp, 4; | lb a0, 1020(tp); | addi tp, tp, 4; | lb a0, 1021(tp); | addi tp, tp, 4; | lb a0, -1021(tp); >+ 1 130242000305c23f130242003372b2010305d23f130242003372b201030532c0; >+ 112 0290; >
";

/// Whole images, and what has no expansion or place.
pub(super) const BUILDS: &str = "11 commands
source; | .format single; | .sandbox 256
= an address in a data register; | la sp, x; | .data; | x: .byte 1; $ sfi build
>+ 1 534649530100000000008001000100000000008000010000000080010000000001000000; >+ 1 370100803371b101130101003371b101; >+ 120 0290; >+ 1 01; >
= a gate; | .gate quit 0; | call quit; $ sfi build; >+ 1 534649530100000000008001000100000000008000010000100080010100000000000000; >+ 1 0000800100000000; >+ 1 7300000033ff9001336f8f0167000f00eff01fff; >+ 118 0290; >
= the usual places; | ebreak; | .sandbox 256; | ebreak; $ sfi build | sfi dis
> format SFIS; > sandbox 0 code 01800000 256 data 80000000 256 start 01800000 gates 0 init 0; ..; >; > sandbox 1 code 02800000 256 data 40000000 256 start 02800000 gates 0 init 0; ..
= what is loaded at 0; | lw a0, 0(zero); $ sfi build | sfi run; > sandbox=0 trap=Load at=00000000 steps=1 out=
= what was stored; | la a0, x; | li a1, 7; | sw a1, 0(a0); | lw a2, 0(a0); | ebreak; | .data; | x: .zero 4; $ sfi build | sfi run --report
..; > sandbox=0 pc=0180001c 00100073 ebreak; ..; >.. x10=80000000 x11=00000007 x12=00000007 ; ..
= a base of two bits; | ebreak; $ sfi build --at 1800000:c0000000; > link fault 6 Place sandbox 0
= code in the zone at zero; | ebreak; $ sfi build --at 1000:80000000; > link fault 6 Place sandbox 0
= lw t4, 0(a0); | lw t4, 0(a0); $ sfi build; > rewrite fault 1 ReservedRegister line 3
= mv s10, a0; | mv s10, a0; $ sfi build; > rewrite fault 1 ReservedRegister line 3
= sw t6, 0(sp); | sw t6, 0(sp); $ sfi build; > rewrite fault 1 ReservedRegister line 3
= jalr gp, 0(a0); | jalr gp, 0(a0); $ sfi build; > rewrite fault 6 Jump line 3
";
