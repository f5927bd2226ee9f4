//! What is built of texts, and texts that aren't built.

/// Images to the letter, written by hand.
pub(super) const BUILDS: &str = "6 commands
source; $ sfi build
= two letters; text hi; >text front of hi; >+ 88 0290; >+ 1 4869; >
= a text that yields; text yields; >+ 1 534649310100000000000001000100000000800100010000100000010100000000000000000000010300000073000000b3ff9001b3ef8f0167800f00010001000100010001000100eff05ffe6ff01fff; >+ 110 0290; >
= a text that reads; text reads; >+ 1 534649310100000000000001000100000000800100010000200000010200000002000000; >+ 1 0000000102000000100000010000000073000000b3ff9001b3ef8f0167800f0073000000b3ff9001b3ef8f0167800f00370580011305050093052000eff05ffd010001000100010001000100eff05ffd; >+ 96 0290; >+ 1 0000; >
= a number kept on a stack, in the second format; | .format 2; text stacked
>+ 1 534649320100000000000001000100000000800100010000100000010100000000000000; >+ 1 0000000100000000
>+ 1 73000000b3ff9001b3ef8f0167800f0013055000130101ff3371b1013361a101; >+ 1 2326a1000325c10001000100eff05ffd; >+ 104 0290; >
= short forms, and a write of the stack pointer after them, whose bundle is full; | .format 2; | .sandbox 256; | .option rvc; | sw a0, 12(sp)
| lw a0, 12(sp); | lw sp, 0(sp)
>+ 1 534649320100000000000001000100000000800100010000000000010000000000000000; >+ 1 2ac63245032101003371b1013361a101; >+ 120 0290; >
= two writes of the stack pointer; | .format 2; | .sandbox 256; | la sp, there; | .data; | there: .zero 1
>+ 1 534649320100000000000001000100000000800100010000000000010000000001000000; >+ 1 370180013371b1013361a10101000100130101003371b1013361a101
>+ 114 0290; >+ 1 00; >
";

/// Texts that can't be built, and the fault of each. Each ends in a line feed. `source` in a row drops `.sandbox`.
pub(super) const REFUSED: &str = "12 commands
source; | .sandbox 256; $ sfi build
= a reserved register; | mv t6, a0; > rewrite fault 1 ReservedRegister line 2
= ecall; | ecall; > rewrite fault 2 Ecall line 2
= no mark between operands; | li a0 5; > source fault 4 Operands line 2
= no format; source; | .format 3; > source fault 3 Number line 1
= a load too far ahead; | lw a0, 2048(a1); > source fault 3 Number line 2
= a load too far back; | lw a0, -2049(a1); > source fault 3 Number line 2
= a store too far ahead; | sw a0, 2048(a1); > source fault 3 Number line 2
= a store too far back; | sw a0, -2049(a1); > source fault 3 Number line 2
= a jump to an unknown name; | j away; > link fault 1 UnknownName line 2
= a jump to data; | j there; | .data; | there: .byte 1; > link fault 1 UnknownName line 2
= no text; source; > source fault 6 Directive line 1
= no UTF-8; bytes ff0a; > input fault utf8
";

/// Directives `.format` with no line feed at the end.
pub(super) const DIRECTIVES: &str = "13 commands
source; $ sfi build
= .format 3; + 1 .format 3; > source fault 3 Number line 1
= .format 0; + 1 .format 0; > source fault 3 Number line 1
= .format -1; + 1 .format -1; > source fault 3 Number line 1
= .format; + 1 .format; > source fault 4 Operands line 1
= .format x; + 1 .format x; > source fault 3 Number line 1
= .format 2 2; + 1 .format 2 2; > source fault 4 Operands line 1
= .format 2; + 1 .format 2; > source fault 6 Directive line 1
= .format 1, .format 2; | .format 1; + 1 .format 2; > source fault 6 Directive line 2
= .sandbox 256, .format 2; | .sandbox 256; + 1 .format 2; > source fault 6 Directive line 2
= .format 2, .sandbox 256, .format 2; | .format 2; | .sandbox 256; + 1 .format 2; > source fault 6 Directive line 3
= no format is the first; + 1 .sandbox 256; >.. 53464931
= .format 1, .sandbox 256; | .format 1; + 1 .sandbox 256; >.. 53464931
= a comment, an empty line, and .format 0x2; | # text; |; | .format 0x2 # two; | .sandbox 256; + 1 .sandbox 256; >.. 53464932
";

/// Texts that load x2 or link in it, in the second format.
pub(super) const WRITES: &str = "5 commands
source; | .format 2; | .sandbox 256; $ sfi build
= lw sp, 0(a0); | lw sp, 0(a0); > rewrite fault 5 StackWrite line 3
= jalr sp, 0(a0); | jalr sp, 0(a0); > rewrite fault 5 StackWrite line 3
= x: jal sp, x; | x: jal sp, x; > rewrite fault 5 StackWrite line 3
= lw sp, 0(t6); | lw sp, 0(t6); > rewrite fault 1 ReservedRegister line 3
= jal sp, away; | jal sp, away; > rewrite fault 5 StackWrite line 3
";

/// Three of them in the first format, which builds them.
pub(super) const FIRST_WRITES: &str = "3 commands
source; | .sandbox 256; $ sfi build; ..
= lw sp, 0(a0); | lw sp, 0(a0)
= jalr sp, 0(a0); | jalr sp, 0(a0)
= x: jal sp, x; | x: jal sp, x
";

/// A text that keeps a number on its stack.
pub(super) const KEPT: &str = "4 commands
source; $ sfi build | sfi run
= no format; text stacked; > sandbox=0 exit=5 steps=16 out=
= .format 1; | .format 1; text stacked; > sandbox=0 exit=5 steps=16 out=
= .format 2; | .format 2; text stacked; > sandbox=0 exit=5 steps=10 out=
= .format words; | .format words; text stacked; > sandbox=0 exit=5 steps=6 out=
";

/// Texts at the limits of what can be built, and one step beyond. A store takes 12 bytes, so that no bundle holds two.
pub(super) const LIMITS: &str = "17 commands
source; $ sfi build | sfi check
= a branch at the first byte of the code; | .sandbox 256; | beqz a0, over; times 255 sw a1, 0(a2); | over:; > accepted sandboxes=1 bundles=256
= a branch 4094 bytes ahead, the farthest; | .sandbox 256; | .option rvc; | nop; | beqz a0, over; times 255 sw a1, 0(a2); | over:
> accepted sandboxes=1 bundles=512
= a branch that would go 4096 bytes ahead; | .sandbox 256; | beqz a0, over; times 256 sw a1, 0(a2); | over:; > link fault 2 BranchReach line 2
= a branch 4096 bytes back, the farthest; | .sandbox 256; | back:; times 256 sw a1, 0(a2); | nop; | beqz a0, back; > accepted sandboxes=1 bundles=512
= a branch that would go 4098 bytes back; | .sandbox 256; | back:; times 256 sw a1, 0(a2); | .option rvc; | nop; | nop; | nop; | beqz a0, back
> link fault 2 BranchReach line 263
= in words, 4092 bytes ahead, the farthest; | .format words; | .sandbox 256; | beqz a0, over; times 1022 nop; | over:; > accepted sandboxes=1 bundles=256
= in words, 4096 bytes back, the farthest; | .format words; | .sandbox 256; | back:; times 1024 nop; | beqz a0, back; > accepted sandboxes=1 bundles=512
= the most code of the first format; | .sandbox 256; times 4096 sw a1, 0(a2); > accepted sandboxes=1 bundles=4096
= a bundle more; | .sandbox 256; times 4097 sw a1, 0(a2); > rewrite fault 3 TooLarge sandbox 0
= the most code beside a gate; | .sandbox 256; | .gate quit 0; times 4095 sw a1, 0(a2); > accepted sandboxes=1 bundles=4096
= a bundle more beside a gate; | .sandbox 256; | .gate quit 0; times 4096 sw a1, 0(a2); > link fault 3 TooLarge sandbox 0
= the most data; | .sandbox 1048576; | .data; times 16 .zero 65536; > accepted sandboxes=1 bundles=16
= a byte more of data; | .sandbox 1048576; | .data; times 16 .zero 65536; | .byte 0; > source fault 7 Limit line 19
= sixteen sandboxes; texts 16 sandbox; > accepted sandboxes=16 bundles=256
= seventeen sandboxes; texts 17 sandbox; > link fault 4 TooManySandboxes
= sixty-four gates; text 64 gates; > accepted sandboxes=1 bundles=128
= sixty-five gates; text 64 gates; | .gate h 0; > source fault 7 Limit line 66
";

/// Texts as `dis` lists what is built of them.
pub(super) const LISTED: &str = "3 commands
source; $ sfi build | sfi dis
= a branch 4094 bytes ahead, as it is listed; | .sandbox 256; | .option rvc; | nop; | beqz a0, over; times 255 sw a1, 0(a2); | over:
..; >; > 01000002 7e050fe3 beq x10, x0, 4094; ..
= a branch 4096 bytes back, as it is listed; | .sandbox 256; | back:; times 256 sw a1, 0(a2); | nop; | beqz a0, back
..; >; > 01001000 80050063 beq x10, x0, -4096; ..
= two letters, up to the fill; text hi
> sandbox 0 code 01000000 256 data 01800000 256 start 01000020 gates 2 init 2; > gate 01000000 1; > gate 01000010 0; > 01000000 00000073 ecall
> 01000004 0190ffb3 and x31, x1, x25; > 01000008 018fefb3 or x31, x31, x24; > 0100000c 000f8067 jalr x0, 0(x31); > 01000010 00000073 ecall
> 01000014 0190ffb3 and x31, x1, x25; > 01000018 018fefb3 or x31, x31, x24; > 0100001c 000f8067 jalr x0, 0(x31); > 01000020 01800537 lui x10, 0x1800
> 01000024 00050513 addi x10, x10, 0; > 01000028 00200593 addi x11, x0, 2; > 0100002c fd5ff0ef jal x1, -44; > 01000030 01800537 lui x10, 0x1800
> 01000034 00050513 addi x10, x10, 0; > 01000038 0001 addi x0, x0, 0; > 0100003a 0001 addi x0, x0, 0; > 0100003c 0001 addi x0, x0, 0
> 0100003e 0001 addi x0, x0, 0; > 01000040 01b57fb3 and x31, x10, x27; > 01000044 01afefb3 or x31, x31, x26; > 01000048 001fc503 lbu x10, 1(x31)
> 0100004c fc5ff0ef jal x1, -60; > 01000050 9002 ebreak; ..
";

/// The most code of the second format.
pub(super) const LONG_TEXTS: &str = "2 commands
source; $ sfi build | sfi check
= more code in the second format; | .format 2; | .sandbox 256; times 4097 sw a1, 0(a2); > accepted sandboxes=1 bundles=8192
= the most code of the second format; | .format 2; | .sandbox 256; times 65536 sw a1, 0(a2); > accepted sandboxes=1 bundles=65536
";

/// Each instruction takes at most one bundle, so without gates the limit of instructions comes
/// before that of bundles.
pub(super) const TOO_LONG_TEXTS: &str = "2 commands
source; $ sfi build | sfi check
= an instruction more than a text may have; | .format 2; | .sandbox 256; times 65537 sw a1, 0(a2); > source fault 7 Limit line 65539
= a bundle more than the second format has; | .format 2; | .sandbox 256; | .gate quit 0; times 65536 sw a1, 0(a2); > link fault 3 TooLarge sandbox 0
";
