//! Runs, and the addresses of names.

/// Images of one sandbox.
pub(super) const IMAGES: &str = "6 commands
$ sfi run
= the smallest image; > sandbox=0 trap=Break at=01000000 steps=0 out=
= a load past the data; put 36 b37fb501b3efaf0103a5df0f73001000; > sandbox=0 trap=Load at=018000fd steps=2 out=
= a store below the data; put 36 b37fb501b3efaf01a38faffe73001000; > sandbox=0 trap=Store at=017fffff steps=2 out=
= a store after half a pair; put 36 b37fb50123a0bf00; > refused findings=1 first=V5 sandbox=0 at=01000004
= an image cut short; end 36 63 73001000; > layout fault 3 Short
= an odd digit; end 36 1 7; > input fault hex odd
";

/// Texts of one sandbox.
pub(super) const RUNS: &str = "8 commands
source
= two letters; text hi; $ sfi build | sfi run; $ sfi build | sfi run --rounds 1000 --quantum 1; > sandbox=0 exit=105 steps=19 out=4869
= a text that yields; text yields; $ sfi build | sfi run --rounds 3 --quantum 1000; > sandbox=0 ready steps=32 out=
= a text that yields; text yields; $ sfi build | sfi run --rounds 3 --quantum 8; > sandbox=0 ready steps=20 out=
= a text that reads; text reads; $ sfi build | sfi run --input 616263; > sandbox=0 exit=2 steps=16 out=
= a text that reads; text reads; $ sfi build | sfi run; > sandbox=0 exit=0 steps=16 out=
= a store as far above the data as it reaches; | .sandbox 256; | li a1, -1; | sw a0, 2047(a1); $ sfi build | sfi run
> sandbox=0 trap=Store at=018008fe steps=3 out=
= a load as far below the data as it reaches; | .sandbox 256; | lb a0, -2048(a1); $ sfi build | sfi run
> sandbox=0 trap=Load at=017ff800 steps=2 out=
";

/// What `run --report` prints after the lines of a run.
pub(super) const STATES: &str = "5 commands
= a store that traps; put 36 b37fb501b3efaf01a38faffe; $ sfi run --report
> sandbox=0 trap=Store at=017fffff steps=2 out=; > sandbox=0 pc=01000008 feaf8fa3 sb x10, -1(x31)
> x1=00000000 x2=018000f0 x3=00000000 x4=00000000 x5=00000000 x6=00000000 x7=00000000
> x8=00000000 x9=00000000 x10=00000000 x11=00000000 x12=00000000 x13=00000000 x14=00000000 x15=00000000
> x16=00000000 x17=00000000 x18=00000000 x19=00000000 x20=00000000 x21=00000000 x22=00000000 x23=00000000
> x24=01000000 x25=000000f0 x26=01800000 x27=000000ff x28=00000000 x29=00000000 x30=00000000 x31=01800000
= before its first call; source; text yields; $ sfi build | sfi run --report --quantum 3
> sandbox=0 ready steps=3 out=; > sandbox=0 pc=01000016 0001 addi x0, x0, 0
> x1=00000000 x2=018000f0 x3=00000000 x4=00000000 x5=00000000 x6=00000000 x7=00000000
> x8=00000000 x9=00000000 x10=00000000 x11=00000000 x12=00000000 x13=00000000 x14=00000000 x15=00000000
> x16=00000000 x17=00000000 x18=00000000 x19=00000000 x20=00000000 x21=00000000 x22=00000000 x23=00000000
> x24=01000000 x25=000000f0 x26=01800000 x27=000000ff x28=00000000 x29=00000000 x30=00000000 x31=00000000
= in its stub; source; text yields; $ sfi build | sfi run --rounds 3 --quantum 8 --report
> sandbox=0 ready steps=20 out=; > sandbox=0 pc=01000004 0190ffb3 and x31, x1, x25
> x1=01000020 x2=018000f0 x3=00000000 x4=00000000 x5=00000000 x6=00000000 x7=00000000
> x8=00000000 x9=00000000 x10=00000000 x11=00000000 x12=00000000 x13=00000000 x14=00000000 x15=00000000
> x16=00000000 x17=00000000 x18=00000000 x19=00000000 x20=00000000 x21=00000000 x22=00000000 x23=00000000
> x24=01000000 x25=000000f0 x26=01800000 x27=000000ff x28=00000000 x29=00000000 x30=00000000 x31=01000020
= one trap and one exit; source; | .sandbox 256; | ebreak; | .sandbox 256; | .gate quit 0; | call quit; $ sfi build | sfi run --report
> sandbox=0 trap=Break at=01000000 steps=0 out=; > sandbox=1 exit=0 steps=8 out=; > sandbox=0 pc=01000000 00100073 ebreak
> x1=00000000 x2=018000f0 x3=00000000 x4=00000000 x5=00000000 x6=00000000 x7=00000000
> x8=00000000 x9=00000000 x10=00000000 x11=00000000 x12=00000000 x13=00000000 x14=00000000 x15=00000000
> x16=00000000 x17=00000000 x18=00000000 x19=00000000 x20=00000000 x21=00000000 x22=00000000 x23=00000000
> x24=01000000 x25=000000f0 x26=01800000 x27=000000ff x28=00000000 x29=00000000 x30=00000000 x31=00000000
= a sandbox that exits; source; text hi; $ sfi build | sfi run --report; > sandbox=0 exit=105 steps=19 out=4869
";

/// Two sandboxes.
pub(super) const NEIGHBOURS: &str = "12 commands
= the first posts to the second; source; | .sandbox 256; | .gate post 4; | .gate quit 0; | li a0, 1; | li a1, 7; | call post; | call quit; text take
$ sfi build | sfi run; $ sfi build | sfi run --rounds 1000 --quantum 1; > sandbox=0 exit=0 steps=17 out=; > sandbox=1 exit=7 steps=19 out=
= the second posts to the first; source; text take; text post to 0; $ sfi build | sfi run
> sandbox=0 exit=0 steps=19 out=; > sandbox=1 exit=0 steps=17 out=
= the second posts to the first; source; text take; text post to 0; $ sfi build | sfi run --rounds 1000 --quantum 1
> sandbox=0 exit=7 steps=19 out=; > sandbox=1 exit=0 steps=17 out=
= a mailbox that is full; source; | .sandbox 256; | ebreak; | .sandbox 256; | .gate post 4; | .gate put 1; | .gate quit 0; | la s0, answers
| li s1, 17; | again: li a0, 0; | mv a1, s1; | call post; | sw a0, 0(s0); | addi s0, s0, 4; | addi s1, s1, -1; | bnez s1, again; | li a0, 2
| call post; | sw a0, 0(s0); | la a0, answers; | li a1, 72; | call put; | call quit; | .data; | answers: .zero 72; $ sfi build | sfi run
> sandbox=0 trap=Break at=01000000 steps=0 out=
> sandbox=1 exit=72 steps=287 out=0000000000000000000000000000000000000000000000000000000000000000000000000000000000000000000000000000000000000000000000000000000001000000ffffffff
= a sandbox that posts to itself; source; | .sandbox 256; | .gate post 4; | .gate take 5; | .gate quit 0; | li a0, 0; | li a1, 5; | call post
| li a0, 0; | li a1, 6; | call post; | call take; | li t0, 10; | mul s0, a0, t0; | call take; | add a0, s0, a1; | call quit; $ sfi build | sfi run
> sandbox=0 exit=51 steps=45 out=
= a bare store into a neighbour, checked; put 4 02000000; put 36 2320b500; text front of a neighbour; + 88 0290; + 1 4869; $ sfi check; $ sfi run --rounds 1000
> refused findings=1 first=V5 sandbox=0 at=01000000
= a masked store beside a neighbour, checked; put 4 02000000; put 36 b37fb501b3efaf0123a0bf00; text front of a neighbour; + 88 0290; + 1 4869; $ sfi check
> accepted sandboxes=2 bundles=32
= a masked store beside a neighbour; put 4 02000000; put 36 b37fb501b3efaf0123a0bf00; text front of a neighbour; + 88 0290; + 1 4869; $ sfi run --rounds 1000 --quantum 1
$ sfi run --rounds 1000 --quantum 3; $ sfi run --rounds 1000 --quantum 1000
> sandbox=0 trap=Break at=0100000c steps=3 out=; > sandbox=1 exit=105 steps=19 out=4869
";

/// Puts and gets at their limits, and one byte beyond. Each exits with the answer.
pub(super) const BYTES: &str = "6 commands
source; $ sfi build | sfi run
= as many bytes as can be put at a time; | .sandbox 131072; | .gate ask 1; | .gate quit 0; | la a0, bytes; | li a1, 65536; | call ask; | call quit
| .data; | bytes:; >+ 1 sandbox=0 exit=65536 steps=16 out=; >+ 65536 00; >
= a byte more; | .sandbox 131072; | .gate ask 1; | .gate quit 0; | la a0, bytes; | li a1, 65537; | call ask; | call quit; | .data; | bytes:
> sandbox=0 exit=4294967295 steps=23 out=
= as many bytes as can be got at a time; | .sandbox 131072; | .gate ask 2; | .gate quit 0; | la a0, bytes; | li a1, 65536; | call ask; | call quit
| .data; | bytes:; input 65537 07; > sandbox=0 exit=65536 steps=16 out=
= a byte more than can be got; | .sandbox 131072; | .gate ask 2; | .gate quit 0; | la a0, bytes; | li a1, 65537; | call ask; | call quit; | .data
| bytes:; input 65537 07; > sandbox=0 exit=4294967295 steps=23 out=
= as many bytes as an output holds, and none more; text 16 puts; | li a1, 0; | call put; | call quit; | .data; | bytes:
>+ 1 sandbox=0 exit=0 steps=187 out=; >+ 1048576 00; >
= as many bytes as an output holds, and one more; text 16 puts; | li a1, 1; | call put; | call quit; | .data; | bytes:
>+ 1 sandbox=0 exit=4294967295 steps=187 out=; >+ 1048576 00; >
";

/// What `map` prints.
pub(super) const MAPS: &str = "23 commands
source
= two sandboxes; text names; $ sfi map
> sandbox=0 gate exit at=01000000; > sandbox=0 data text at=01800004; > sandbox=0 code end at=01000030; > sandbox=1 code end at=02000000
= at places of its own; text names; $ sfi map --at 20500000:80000000
> sandbox=0 gate exit at=20500000; > sandbox=0 data text at=80000004; > sandbox=0 code end at=20500030; > sandbox=1 code end at=02000000
= a text without names; | .sandbox 256; | ret; $ sfi map
= a name that is nowhere; | .sandbox 256; | j nowhere; $ sfi map; > link fault 1 UnknownName line 2
= a wrong place; text names; $ sfi map --at 20500080:80000000; > link fault 6 Place sandbox 0
= labels are at words' starts, also of 16-bit forms; | .format words; | .sandbox 256; | .option rvc; | a: add a0, a0, a1; | b: add a1, a1, a2
| add a2, a2, a3; | c: lw a0, 0(a1); | d:; $ sfi map
> sandbox=0 code a at=01000000; > sandbox=0 code b at=01000004; > sandbox=0 code c at=01000008; > sandbox=0 code d at=01000014
= names that a table tells; | .format words; | .sandbox 256; | .gate log 2; | add: add a0, a0, a1; | ret; | .data; | .word 0x01000010
| .byte 3, 97, 100, 100; | .word 0x01000000; | .byte 3, 108, 111, 103; | .word 7, 8, 8, 0x4e494653; $ sfi map
> sandbox=0 gate log at=01000000; > sandbox=0 code add at=01000010; > interface 7; > export 01000010 add; > import 01000000 log
= names of the first of two sandboxes; | .format 2; | .sandbox 256; | a: ret; | .data; | .word 0x01000000; | .byte 1, 97
| .word 0, 6, 0, 0x4e494653; | .sandbox 256; | b: ret; $ sfi map
> sandbox=0 code a at=01000000; > interface 0; > export 01000000 a; > sandbox=1 code b at=02000000
= a table in the first format; | .sandbox 256; | a: ret; | .data; | .word 0x01000000; | .byte 1, 97; | .word 0, 6, 0, 0x4e494653; $ sfi map
> sandbox=0 code a at=01000000
= a table of names that is none, after a label; | .format 2; | .sandbox 256; | a: ret; | .data; | .word 0x01000000; | .byte 1, 97
| .word 0, 7, 0, 0x4e494653; $ sfi map; > sandbox=0 code a at=01000000
= a table that the text asks for; | .format words; | .sandbox 256; | .export add; | .import log 2; | add: add a0, a0, a1; | ret; $ sfi map
> sandbox=0 code add at=01000010; > sandbox=0 gate log at=01000000; > interface 0; > export 01000010 add; > import 01000000 log
= exports of data and of a gate, after the first data bytes; | .format 2; | .sandbox 256; | .export text; | .gate put 1; | .export put; | ret
| .data; | .byte 1; | text: .byte 2; | .sandbox 256; | .import quit 0; | end:; $ sfi map
> sandbox=0 data text at=01800001; > sandbox=0 gate put at=01000000; > interface 0; > export 01800001 text; > export 01000000 put
> sandbox=1 gate quit at=02000000; > sandbox=1 code end at=02000010; > interface 0; > import 02000000 quit
= an export at a place of its own; | .format 2; | .sandbox 256; | .export a; | nop; | a: ret; $ sfi map --at 20500000:80000000
> sandbox=0 code a at=20500010; > interface 0; > export 20500010 a
= as much data as leaves room for a table of 22 bytes; | .format 2; | .sandbox 256; | .export a; | a: ret; | .data; | .zero 234; $ sfi map
> sandbox=0 code a at=01000000; > interface 0; > export 01000000 a
= a byte more; | .format 2; | .sandbox 256; | .export a; | a: ret; | .data; | .zero 235; $ sfi map; > names fault 2 NoRoom sandbox 0
= an export of no name; | .format 2; | .sandbox 256; | nop; | .sandbox 256; | .export a; | .export b; | a: ret; $ sfi map
> names fault 1 Unknown line 6
= a fault of linking goes first; | .format 2; | .sandbox 256; | .export a; | j b; $ sfi map; > link fault 1 UnknownName line 4
= in the first format; | .sandbox 256; | .export a; $ sfi map; > source fault 1 Word line 2
= a gate to import there; | .sandbox 256; | .import log 2; $ sfi map; > source fault 1 Word line 2
= an export before the first sandbox; | .format 2; | .export a; $ sfi map; > source fault 6 Directive line 2
= an export after an instruction; | .format 2; | .sandbox 256; | nop; | .export a; $ sfi map; > source fault 6 Directive line 4
= an import of a gate's name; | .format 2; | .sandbox 256; | .gate log 1; | .import log 2; $ sfi map; > source fault 5 LabelTwice line 4
= an import of a service that there isn't; | .format 2; | .sandbox 256; | .import log 6; $ sfi map; > source fault 3 Number line 3
";
