//! Sources of the third format, whose code is in words. The images are what the tables of docs/SOURCE.md say, encoded by
//! the GNU assembler.

/// What each load, store, jump and write becomes; steps before an access, and what is none; how slots stand in words.
pub(super) const EXPANSIONS: &str = "20 commands
source; | .format words; | .sandbox 256; $ sfi build; >+ 1 534649570100000000000001000100000000800100010000000000010000000000000000
= on each data register; | lw a0, 4(sp); | sb a1, -1(gp); | lhu a2, 2047(tp); >+ 1 03254100a38fb1fe0356f27f; >+ 122 0290; >
= on x0; | lw a0, 4(zero); | sb a1, -8(x0); >+ 1 03254d00230cbdfe; >+ 124 0290; >
= on any other register; | lw a0, 4(a1); | sh a2, -2(t3); >+ 1 b3ffb501b3eeaf0103a54e00b37fbe01b3eeaf01239fcefe; >+ 116 0290; >
= a write of each data register; | addi sp, sp, -16; | add gp, gp, a0; | lui tp, 4096
>+ 1 130101ffb37fb10133e1af01b381a100b3ffb101b3e1af0137020001b37fb20133e2af01; >+ 110 0290; >
= a load of a data register, on one and on another; | lw gp, 8(sp); | lw sp, 0(a0)
>+ 1 83218100b3ffb101b3e1af01b37fb501b3eeaf0103a10e00b37fb10133e1af01; >+ 112 0290; >
= a move to a data register; | mv sp, a0; | mv gp, sp; | add tp, x0, a1; | li tp, 0; | add gp, a0, x0
>+ 1 b37fb50133e1af01b37fb101b3e1af01b3ffb50133e2af01b37fb00133e2af01b3010500b3ffb101b3e1af01; >+ 106 0290; >
= indirect jumps; | jalr ra, 0(a0); | jr sp; | ret; >+ 1 337f9501336f8f01e7000f00337f9101336f8f0167000f0033ff9001336f8f0167000f00; >+ 110 0290; >
= a call has no gap before it; | nop; | x: call x; | nop; >+ 1 13000000ef00000013000000; >+ 122 0290; >
= a step before an access; | addi sp, sp, -32; | sw ra, 28(sp); | addi gp, gp, 2047; | lw a0, -1020(gp)
>+ 1 130101fe232e11009381f17f03a541c0; >+ 120 0290; >
= at its bound, and beyond it; | addi tp, tp, 4; | lb a0, 1020(tp); | addi tp, tp, 4; | lb a0, 1021(tp); | addi tp, tp, 4; | lb a0, -1021(tp)
>+ 1 130242000305c23f13024200b37fb20133e2af010305d23f13024200b37fb20133e2af01030532c0; >+ 108 0290; >
= before a load of what it steps; | addi gp, gp, 8; | lw gp, 0(gp); >+ 1 9381810083a10100b3ffb101b3e1af01; >+ 120 0290; >
= before a load into x0, and a store of x0; | addi sp, sp, -16; | lw zero, 12(sp); | addi gp, gp, 4; | sw zero, 0(gp)
>+ 1 130101ffb37fb10133e1af010320c1009381410023a00100; >+ 116 0290; >
= a label between the two; | addi sp, sp, -16; | x: sw ra, 12(sp); >+ 1 130101ffb37fb10133e1af0123261100; >+ 120 0290; >
= an access on another register; | addi sp, sp, -16; | sw ra, 12(gp); >+ 1 130101ffb37fb10133e1af0123a61100; >+ 120 0290; >
= a sum that is no step; | addi sp, gp, 16; | lw a0, 0(sp); >+ 1 13810101b37fb10133e1af0103250100; >+ 120 0290; >
= two steps; | addi sp, sp, 8; | addi sp, sp, 8; | lw a0, 0(sp); >+ 1 13018100b37fb10133e1af011301810003250100; >+ 118 0290; >
= a move that is a step; | addi sp, sp, 0; | lw a0, 0(sp); >+ 1 1301010003250100; >+ 124 0290; >
= two 16-bit forms in a word, and one alone; | .option rvc; | add a0, a0, a1; | add a1, a1, a2; | add a2, a2, a3; | sub t0, t1, t2
>+ 1 2e95b2953306d600b3027340; >+ 122 0290; >
= 16-bit forms before a label and at the end; | .option rvc; | add a0, a0, a1; | x: add a1, a1, a2; | j x; | add a2, a2, a3
>+ 1 3305b500b385c5006ff0dfff3306d600; >+ 120 0290; >
= 16-bit forms of a step and its access, and of a write before its mask; | .option rvc; | addi sp, sp, -16; | sw ra, 12(sp); | add a0, a0, a1; | addi sp, sp, 16; | add a0, a0, a1
>+ 1 411106c62e954101b37fb10133e1af013305b500; >+ 118 0290; >
";

/// An address in a data register, and gates.
pub(super) const IMAGES: &str = "3 commands
source; | .format words; | .sandbox 256; $ sfi build
= an address in a data register; | la sp, x; | .data; | x: .byte 1
>+ 1 534649570100000000000001000100000000800100010000000000010000000001000000; >+ 1 37018001b37fb10133e1af0113010100b37fb10133e1af01; >+ 116 0290; >+ 1 01; >
= two gates; | .gate get 2; | .gate quit 0; | call get; | again: lw a1, 0(a0); | j again
>+ 1 534649570100000000000001000100000000800100010000200000010200000000000000; >+ 1 00000001020000001000000100000000; >+ 1 7300000033ff9001336f8f0167000f007300000033ff9001336f8f0167000f00eff01ffeb37fb501b3eeaf0183a50e006ff05fff; >+ 102 0290; >
= a table of names; | .export add; | .import log 5; | add: ret
>+ 1 534649570100000000000001000100000000800100010000100000010100000020000000; >+ 1 0000000105000000
>+ 1 7300000033ff9001336f8f0167000f0033ff9001336f8f0167000f00; >+ 114 0290
>+ 1 100000010361646400000001036c6f670000000008000000080000005346494e; >
";

/// What has no expansion, or no place.
pub(super) const REFUSED: &str = "14 commands
source; | .format words; | .sandbox 256; $ sfi build
= lw t4, 0(a0); | lw t4, 0(a0); > rewrite fault 1 ReservedRegister line 3
= add a0, t5, a0; | add a0, t5, a0; > rewrite fault 1 ReservedRegister line 3
= sw t6, 0(sp); | sw t6, 0(sp); > rewrite fault 1 ReservedRegister line 3
= mv s8, a0; | mv s8, a0; > rewrite fault 1 ReservedRegister line 3
= jalr gp, 0(a0); | jalr gp, 0(a0); > rewrite fault 6 Jump line 3
= jalr tp, 0(a0); | jalr tp, 0(a0); > rewrite fault 6 Jump line 3
= jalr sp, 0(a0); | jalr sp, 0(a0); > rewrite fault 6 Jump line 3
= x: jal gp, x; | x: jal gp, x; > rewrite fault 6 Jump line 3
= jalr ra, 4(a0); | jalr ra, 4(a0); > rewrite fault 6 Jump line 3
= jalr t4, 4(a0); | jalr t4, 4(a0); > rewrite fault 1 ReservedRegister line 3
= jal sp, away; | jal sp, away; > rewrite fault 6 Jump line 3
= a jump to an unknown name; | j away; > link fault 1 UnknownName line 3
= a branch that would go 4096 bytes ahead; | beqz a0, over; times 1023 nop; | over:; > link fault 2 BranchReach line 3
= a branch that would go 4100 bytes back; | back:; times 1025 nop; | beqz a0, back; > link fault 2 BranchReach line 1029
";
