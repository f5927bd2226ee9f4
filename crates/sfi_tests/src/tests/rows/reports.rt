//! What `check --report`, `convert`, `move`, `translate` and `dis` print.

/// A line for each finding, and then the verdict or the fault.
pub(super) const REPORTS: &str = "18 commands
$ sfi check --report
= smallest; > accepted sandboxes=1 bundles=16
= magic; put 0 53464933; > layout fault 1 Magic
= no instruction; put 36 00000000; > 0 01000000 V1 decode .half 0x0000; > refused findings=1 first=V1 sandbox=0 at=01000000
= ecall across the end; put 36 01000100010001000100010001007300
> 0 0100000e V2 cross .half 0x0073; > refused findings=1 first=V2 sandbox=0 at=0100000e
= stub of no gate; put 36 73000000b3ff9001b3ef8f0167800f00; > 0 01000000 V3 ecall ecall; > refused findings=1 first=V3 sandbox=0 at=01000000
= link in x27; put 36 ef0d0001; > 0 01000000 V4 reserved jal x27, 16; > refused findings=1 first=V4 sandbox=0 at=01000000
= pair on x0; put 36 3370b5013360a0012320b000; > 0 01000008 V5 access sw x11, 0(x0); > refused findings=1 first=V5 sandbox=0 at=01000008
= c.jr; put 36 82800290; > 0 01000000 V6 jump jalr x0, 0(x1); > refused findings=1 first=V6 sandbox=0 at=01000000
= jal into a bundle; put 36 6f004000; > 0 01000000 V7 target jal x0, 4; > refused findings=1 first=V7 sandbox=0 at=01000000
= branch at the end; put 288 e30a00fe; > 0 010000fc V8 end beq x0, x0, -12; > refused findings=1 first=V8 sandbox=0 at=010000fc
= another stub; put 28 01000000; put 36 73000000b3ff9001b3ef8f0167800f01; insert 36 0000000100000000
> 0 01000000 V9 gate stub expected; > refused findings=1 first=V9 sandbox=0 at=01000000
= both sandboxes, the second in two places of a bundle; put 4 02000000; put 52 00000000
end 292 1 00000002000100000021800100010000000000020000000000000000; end 320 1 67800000; end 324 1 ef0d0001; end 328 62 73001000
> 0 01000010 V1 decode .half 0x0000; > 1 02000000 V6 jump jalr x0, 0(x1); > 1 02000004 V4 reserved jal x27, 16
> refused findings=3 first=V1 sandbox=0 at=01000010
= masks the stack pointer in the second format; put 0 53464932; put 36 3371b501
> 0 01000000 V10 stack and x2, x10, x27; > refused findings=1 first=V10 sandbox=0 at=01000000
= no instruction in a word's second half; put 0 53464957; put 36 01000000
> 0 01000002 V1 decode .half 0x0000; > refused findings=1 first=V1 sandbox=0 at=01000002
= across a word's end, and a longer instruction; put 0 53464957; put 36 01001305010002901f000100
> 0 01000002 V2 cross .half 0x0513; > 0 01000008 V1 decode .half 0x001f; > refused findings=2 first=V2 sandbox=0 at=01000002
= store on a register without a type; put 0 53464957; put 36 2320be00
> 0 01000000 V5 access sw x11, 0(x28); > refused findings=1 first=V5 sandbox=0 at=01000000
= writes x2 and uses it, writes x30, and masks it alone; put 0 53464957; put 36 130100002320b100130f0000337f9501
> 0 01000004 V10 data sw x11, 0(x2); > 0 01000008 V11 code addi x30, x0, 0; > 0 01000010 V11 code ebreak
> refused findings=3 first=V10 sandbox=0 at=01000004
= writes x31; put 0 53464957; put 36 930ff0ff33e1af012320b100
> 0 01000000 V12 offset addi x31, x0, -1; > refused findings=1 first=V12 sandbox=0 at=01000000
";

/// What is converted, and what isn't.
pub(super) const CONVERSIONS: &str = "13 commands
$ sfi convert
= x2 moves; put 36 41110290; > refused findings=1 first=V10 sandbox=0 at=01000000
= a store on x2; put 36 06c60290; > refused findings=1 first=V5 sandbox=0 at=01000000
= of the second format; put 0 53464932; > convert fault 2 NotOld
= of the second format, cut short; put 0 53464932; cut 40; > convert fault 2 NotOld
= of code in words; put 0 53464957; > convert fault 5 Words
= of code in words, with a finding; put 0 53464957; put 36 2320be00; > refused findings=1 first=V5 sandbox=0 at=01000000
= of code in words, cut short; put 0 53464957; cut 40; > layout fault 3 Short
= of no format; put 0 53464933; > layout fault 1 Magic
= less a byte; cut 291; > layout fault 3 Short
= three bytes; cut 3; > layout fault 3 Short
= the magic changes alone; >+ 1 534649320100000000000001000100000000800100010000000000010000000000000000; >+ 64 73001000; >
= two letters; source; text front of hi; + 88 0290; + 1 4869
>+ 1 534649320100000000000001000100000000800100010000200000010200000002000000; >+ 1 00000001010000001000000100000000
>+ 1 73000000b3ff9001b3ef8f0167800f0073000000b3ff9001b3ef8f0167800f00; >+ 1 370580011305050093052000eff05ffd37058001130505000100010001000100
>+ 1 b37fb501b3efaf0103c51f00eff05ffc; >+ 88 0290; >+ 1 4869; >
= an odd digit; source; + 1 5; > input fault hex odd
";

/// What becomes of the new image.
pub(super) const CONVERTED: &str = "5 commands
= the new image is accepted; $ sfi convert | sfi check; $ sfi convert --raw | sfi check; > accepted sandboxes=1 bundles=16
= what is converted runs alike; source; text front of hi; + 88 0290; + 1 4869; $ sfi run; $ sfi convert | sfi run; $ sfi convert --raw | sfi run; > sandbox=0 exit=105 steps=19 out=4869
";

/// What is moved to one place, and what isn't.
pub(super) const MOVES: &str = "7 commands
$ sfi move --at 20500000:80000000
= the bases and the start change alone
>+ 1 534649310100000000005020000100000000008000010000000050200000000000000000; >+ 64 73001000; >
= of two letters the gates' addresses, too; source; text front of hi; + 88 0290; + 1 4869
>+ 1 534649310100000000005020000100000000008000010000200050200200000002000000; >+ 1 00005020010000001000502000000000
>+ 1 73000000b3ff9001b3ef8f0167800f0073000000b3ff9001b3ef8f0167800f00; >+ 1 370580011305050093052000eff05ffd37058001130505000100010001000100
>+ 1 b37fb501b3efaf0103c51f00eff05ffc; >+ 88 0290; >+ 1 4869; >
= names of the data and the code move, but no other address and no claim; put 32 3e000000; + 1 000080010164ff008001016500018001016eff000001016300010001016200000001016710008001052e726f6f6d070000001e000000100000005346494e
>+ 1 53464931010000000000502000010000000000800001000000005020000000003e000000; >+ 64 73001000; >+ 1 000000800164ff000080016500018001016eff005020016300010001016200005020016710008001052e726f6f6d070000001e000000100000005346494e; >
= of what is no table no byte changes; put 32 3e000000; + 1 000080010164ff008001016500018001016eff000001016300010001016200000001016710008001052e726f6f6d070000001d000000100000005346494e
>+ 1 53464931010000000000502000010000000000800001000000005020000000003e000000; >+ 64 73001000; >+ 1 000080010164ff008001016500018001016eff000001016300010001016200000001016710008001052e726f6f6d070000001d000000100000005346494e; >
= in words with a finding; put 0 53464957; put 36 2320be00; > refused findings=1 first=V5 sandbox=0 at=01000000
= less a byte; cut 291; > layout fault 3 Short
= an odd digit; source; + 1 5; > input fault hex odd
";

/// Other places and sandboxes.
pub(super) const MOVED: &str = "17 commands
= the new image is accepted; $ sfi move --at 20500000:80000000 | sfi check; $ sfi move --at ffffff00:1000 --raw --sandbox 0 | sfi check
> accepted sandboxes=1 bundles=16
= to where it lies; $ sfi move --at 1000000:1800000
>+ 1 534649310100000000000001000100000000800100010000000000010000000000000000; >+ 64 73001000; >
= a wrong place; $ sfi move --at 20500080:80000000; $ sfi move --at 20500000:80000080; $ sfi move --at 20500000:00000f00
$ sfi move --at 20500000:fffff000; $ sfi move --at 20500000:20501000; > move fault 3 NoPlace
= no such sandbox; $ sfi move --at 20500000:80000000 --sandbox 1; $ sfi move --at 20500080:80000000 --sandbox 4294967295; > move fault 2 NoSandbox
= a finding before a wrong place; put 36 3370b5013360a0012320b000; $ sfi move --at 1:2; $ sfi move --at 1:2 --sandbox 9
> refused findings=1 first=V5 sandbox=0 at=01000008
= the second of two sandboxes; source; | .sandbox 256; | ebreak; | .sandbox 256; | ebreak
as sfi build --at 1000000:1800000 --at 20500000:80000000; $ sfi build | sfi move --sandbox 1 --at 20500000:80000000
= the second where the first lies; source; | .sandbox 256; | ebreak; | .sandbox 256; | ebreak
$ sfi build | sfi move --sandbox 1 --at 1000000:80000000; > move fault 3 NoPlace
= names as they are built there; source; | .format 2; text movable
as sfi build --at 20500000:80000000; $ sfi build | sfi move --at 20500000:80000000
= as they are built there in words; source; | .format words; text movable
as sfi build --at 20500000:80000000; $ sfi build | sfi move --at 20500000:80000000
= as they are listed there; source; | .format 2; text movable; $ sfi build --at 20500000:80000000 | sfi dis; ..; >
> interface 0; > export 20500010 f; > export 80000002 text; > export 20500000 say; > import 20500000 say; ..
";

/// What is translated for a host and as a whole program, and what isn't, nor compiled.
pub(super) const TRANSLATIONS: &str = "7 commands
= two letters for a host; source; text front of hi; + 88 0290; + 1 4869; $ sfi translate
> #include \"sfi_native.h\"; > SANDBOX(0,16,01000000,256,01800000,256,01000020,2,2); > GATE(01000000,1); > GATE(01000010,0)
> DATA(0,72,105,0); > FUNCTION(0,01000000); ..; >; > EBREAK(010000fe,2); > LAST
= two letters as a whole program; source; text front of hi; + 88 0290; + 1 4869; $ sfi translate --whole
> #ifndef SFI_NATIVE_H; ..; >; > #else; > SANDBOX(0,16,01000000,256,01800000,256,01000020,2,2); ..; >; > EBREAK(010000fe,2); > LAST; > #endif
= what breaks a rule; put 36 3370b5013360a0012320b000; $ sfi translate; $ sfi translate --whole; $ sfi native
> refused findings=1 first=V5 sandbox=0 at=01000008
= less a byte; cut 291; $ sfi translate; $ sfi native; > layout fault 3 Short
";

/// Listings, and faults.
pub(super) const LISTINGS: &str = "11 commands
$ sfi dis
= the smallest image
> sandbox 0 code 01000000 256 data 01800000 256 start 01000000 gates 0 init 0; > 01000000 00100073 ebreak; > 01000004 00100073 ebreak
> 01000008 00100073 ebreak; > 0100000c 00100073 ebreak; > 01000010 00100073 ebreak; > 01000014 00100073 ebreak; > 01000018 00100073 ebreak
> 0100001c 00100073 ebreak; > 01000020 00100073 ebreak; > 01000024 00100073 ebreak; > 01000028 00100073 ebreak; > 0100002c 00100073 ebreak
> 01000030 00100073 ebreak; > 01000034 00100073 ebreak; > 01000038 00100073 ebreak; > 0100003c 00100073 ebreak; > 01000040 00100073 ebreak
> 01000044 00100073 ebreak; > 01000048 00100073 ebreak; > 0100004c 00100073 ebreak; > 01000050 00100073 ebreak; > 01000054 00100073 ebreak
> 01000058 00100073 ebreak; > 0100005c 00100073 ebreak; > 01000060 00100073 ebreak; > 01000064 00100073 ebreak; > 01000068 00100073 ebreak
> 0100006c 00100073 ebreak; > 01000070 00100073 ebreak; > 01000074 00100073 ebreak; > 01000078 00100073 ebreak; > 0100007c 00100073 ebreak
> 01000080 00100073 ebreak; > 01000084 00100073 ebreak; > 01000088 00100073 ebreak; > 0100008c 00100073 ebreak; > 01000090 00100073 ebreak
> 01000094 00100073 ebreak; > 01000098 00100073 ebreak; > 0100009c 00100073 ebreak; > 010000a0 00100073 ebreak; > 010000a4 00100073 ebreak
> 010000a8 00100073 ebreak; > 010000ac 00100073 ebreak; > 010000b0 00100073 ebreak; > 010000b4 00100073 ebreak; > 010000b8 00100073 ebreak
> 010000bc 00100073 ebreak; > 010000c0 00100073 ebreak; > 010000c4 00100073 ebreak; > 010000c8 00100073 ebreak; > 010000cc 00100073 ebreak
> 010000d0 00100073 ebreak; > 010000d4 00100073 ebreak; > 010000d8 00100073 ebreak; > 010000dc 00100073 ebreak; > 010000e0 00100073 ebreak
> 010000e4 00100073 ebreak; > 010000e8 00100073 ebreak; > 010000ec 00100073 ebreak; > 010000f0 00100073 ebreak; > 010000f4 00100073 ebreak
> 010000f8 00100073 ebreak; > 010000fc 00100073 ebreak
= half of an ecall; put 36 01000100010001000100010001007300
> sandbox 0 code 01000000 256 data 01800000 256 start 01000000 gates 0 init 0; > 01000000 0001 addi x0, x0, 0; > 01000002 0001 addi x0, x0, 0
> 01000004 0001 addi x0, x0, 0; > 01000006 0001 addi x0, x0, 0; > 01000008 0001 addi x0, x0, 0; > 0100000a 0001 addi x0, x0, 0
> 0100000c 0001 addi x0, x0, 0; > 0100000e .bytes 7300; > 01000010 00100073 ebreak; ..; >; > 010000fc 00100073 ebreak
= no instruction at the front; put 36 1f000102030405060708090a0b0c0d0e
> sandbox 0 code 01000000 256 data 01800000 256 start 01000000 gates 0 init 0; > 01000000 .bytes 1f000102030405060708090a0b0c0d0e
> 01000010 00100073 ebreak; ..; >; > 010000fc 00100073 ebreak
= a gate and first data; put 28 0100000000000000; put 36 73000000b3ff9001b3ef8f0167800f00; insert 36 0000000105000000
> sandbox 0 code 01000000 256 data 01800000 256 start 01000000 gates 1 init 0; > gate 01000000 5; > 01000000 00000073 ecall
> 01000004 0190ffb3 and x31, x1, x25; > 01000008 018fefb3 or x31, x31, x24; > 0100000c 000f8067 jalr x0, 0(x31); > 01000010 00100073 ebreak; ..; >
> 010000fc 00100073 ebreak
= names at the end of the first data; put 32 20000000; insert 292 400000010361646400000001036c6f670200000008000000080000005346494e
> sandbox 0 code 01000000 256 data 01800000 256 start 01000000 gates 0 init 32; > interface 2; > export 01000040 add; > import 01000000 log
> 01000000 00100073 ebreak; ..; >; > 010000fc 00100073 ebreak
= a table of names that is none; put 32 20000000; insert 292 400000010361646400000001036c6f670200000009000000080000005346494e
> sandbox 0 code 01000000 256 data 01800000 256 start 01000000 gates 0 init 32; > 01000000 00100073 ebreak; ..; >; > 010000fc 00100073 ebreak
= the second format; put 0 53464932; put 36 3371b501
> format SFI2; > sandbox 0 code 01000000 256 data 01800000 256 start 01000000 gates 0 init 0; > 01000000 01b57133 and x2, x10, x27
> 01000004 00100073 ebreak; ..
= code in words; put 0 53464957; put 36 33e1af01411106c0
> format SFIW; > sandbox 0 code 01000000 256 data 01800000 256 start 01000000 gates 0 init 0; > 01000000 01afe133 or x2, x31, x26
> 01000004 1141 addi x2, x2, -16; > 01000006 c006 sw x1, 0(x2); > 01000008 00100073 ebreak; ..
= across a word's end, and a longer instruction; put 0 53464957; put 36 01001305010002901f000100
> format SFIW; > sandbox 0 code 01000000 256 data 01800000 256 start 01000000 gates 0 init 0; > 01000000 0001 addi x0, x0, 0
> 01000002 .bytes 1305; > 01000004 0001 addi x0, x0, 0; > 01000006 9002 ebreak; > 01000008 .bytes 1f000100; > 0100000c 00100073 ebreak; ..
= no format; put 0 53464933; > layout fault 1 Magic
= an odd digit; source; + 1 53464; > input fault hex odd
";
