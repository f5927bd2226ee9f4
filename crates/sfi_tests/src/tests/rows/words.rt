//! Words of a command line: those that ask for nothing or for help, and the places that `--at` gives.

/// Words that ask for nothing.
pub(super) const USAGE: &str = "73 commands
source
= words that ask for nothing; $ sfi; $ sfi frob; $ sfi check image; $ sfi check --raw --raw; $ sfi check --raw=yes; $ sfi check --raw image
$ sfi check --report=yes; $ sfi check --report --report; $ sfi check --report image; $ sfi check --rounds 1; $ sfi build --report; $ sfi build --raw=yes
$ sfi build source; $ sfi map --report; $ sfi map source; $ sfi dis image; $ sfi dis --report; $ sfi dis --raw; $ sfi run image; $ sfi run --raw
$ sfi run --report=yes; $ sfi run --report --report; $ sfi build --at; $ sfi check --at 20500000:80000000; $ sfi run --rounds; $ sfi run --rounds 0
$ sfi run --rounds 10001; $ sfi run --rounds ten; $ sfi run --rounds=-1; $ sfi run --rounds 1 --rounds 1; $ sfi run --quantum 0
$ sfi run --quantum 1000001; $ sfi run --quantum 0x10; $ sfi run --input; $ sfi run --rounds 0 --input 0; $ sfi check --version; $ sfi help frob
$ sfi convert --report; $ sfi translate --report; $ sfi native --raw; $ sfi native image; $ sfi exec; $ sfi exec one two; $ sfi exec image --budget 0; $ sfi exec image --budget ten
$ sfi move; $ sfi move --raw; $ sfi move --sandbox 0; $ sfi move --at 1000000:1800000 --at 1000000:1800000; $ sfi move --at 1000000:1800000 --sandbox one
$ sfi move --at 1000000:1800000 --sandbox=-1; $ sfi move --at 1000000:1800000 --sandbox 4294967296; $ sfi move --at 1000000:1800000 image
$ sfi exec image --budget 18446744073709551616; $ sfi exec --budget 5; $ sfi exec image --raw; $ sfi exec image --interpret=yes
$ sfi exec image --interpret --interpret; >.. error: 
= bytes, and a report; $ sfi check --raw --report; $ sfi check --report --raw
> error: '--raw' and '--report' cannot be used together; >; > For more information, try '--help'.
= no place; $ sfi build --at 20500000; $ sfi build --at :; $ sfi build --at 20500000:; $ sfi build --at :80000000; $ sfi build --at 120500000:80000000
$ sfi build --at 20500000:080000000; $ sfi build --at +2050000:80000000; $ sfi build --at 0x2050:80000000; $ sfi build --at 20500000:80000000:1
$ sfi build --at 1000:2000,3000:4000; $ sfi map --at 20500000; $ sfi move --at 20500000; $ sfi move --at 0x2050:80000000
> error: '--at' wants CODE:DATA, two hexadecimal addresses; >; > For more information, try '--help'.
";

/// What is printed for words that don't parse, as the Rust crate `clap` prints it, and the version.
pub(super) const TEXTS: &str = "5 commands
source
= what is printed for an unknown option; $ sfi check --frob
> error: unexpected argument '--frob' found; >; > Usage: sfi check [OPTIONS]; >; > For more information, try '--help'.
= what is printed for an unknown command; $ sfi frob
> error: unrecognized subcommand 'frob'; >; > Usage: sfi <COMMAND>; >; > For more information, try '--help'.
= a control character is printed as an escape; $ sfi fr\u{1b}[7mob
> error: unrecognized subcommand 'fr\\u{1b}[7mob'; >; > Usage: sfi <COMMAND>; >; > For more information, try '--help'.
= the version; $ sfi --version; $ sfi -V; > sfi 0.1.0; status 3
";

/// Each help says what its command does, how it is called, which options it has, which statuses,
/// and an example. After `..` the first `>` ends a line.
pub(super) const HELP: &str = "33 commands
source; status 3
= help; $ sfi --help; ..; >; >; > Usage: sfi <COMMAND>; ..; >..   check      Accept an image, or; >.. -V, --version; >text statuses; >.. build < 
= help, said in other words; as sfi --help; $ sfi -h; $ sfi help
= help of check; $ sfi check --help; ..; >; >; > Usage: sfi check [OPTIONS]; ..; >.. --raw ; >.. --report ; >text statuses; >.. check --
= help of check, said in other words; as sfi check --help; $ sfi check -h; $ sfi help check
= help of dis; $ sfi dis --help; ..; >.. List an image; >; >; > Usage: sfi dis; ..; >.. -h, --help; >text statuses; >.. dis < 
= help of dis, said in other words; as sfi dis --help; $ sfi dis -h; $ sfi help dis
= help of build; $ sfi build --help; ..; >.. source text; >; >; > Usage: sfi build [OPTIONS]; ..; >.. --at <CODE:DATA> ; >.. --raw ; >text statuses; >.. build < 
= help of build, said in other words; as sfi build --help; $ sfi build -h; $ sfi help build
= help of map; $ sfi map --help; ..; >.. source text; >; >; > Usage: sfi map [OPTIONS]; ..; >.. --at <CODE:DATA> ; >text statuses; >.. map < 
= help of map, said in other words; as sfi map --help; $ sfi map -h; $ sfi help map
= help of run; $ sfi run --help
..; >; >; >.. Usage: sfi ; >.. --rounds <N> ; >.. --quantum <Q> ; >.. --report ; >text statuses; ..; >; >..   sfi run --
= help of run, said in other words; as sfi run --help; $ sfi run -h; $ sfi help run
= help of exec; $ sfi exec --help; ..; >; >; > Usage: sfi exec [OPTIONS] <IMAGE>; ..; >.. --budget <N> ; >.. --interpret ; >.. 124  its steps are used up; >.. sfi exec hi.image
= help of exec, said in other words; as sfi exec --help; $ sfi exec -h; $ sfi help exec
= help of convert; $ sfi convert --help; ..; >.. second format; >; >; > Usage: sfi convert [OPTIONS]; ..; >.. --raw ; >text statuses; >.. convert < 
= help of convert, said in other words; as sfi convert --help; $ sfi convert -h; $ sfi help convert
= help of move; $ sfi move --help; ..; >.. if it is accepted; >; >; > Usage: sfi move [OPTIONS] --at <CODE:DATA>; ..; >.. --at <CODE:DATA> ; >.. --sandbox <N> ; >.. --raw 
>text statuses; >.. move --at
= help of move, said in other words; as sfi move --help; $ sfi move -h; $ sfi help move
= help of translate; $ sfi translate --help; ..; >.. as C; >; >; > Usage: sfi translate [OPTIONS]; ..; >.. --whole ; >text statuses
>.. translate --whole < 
= help of translate, said in other words; as sfi translate --help; $ sfi translate -h; $ sfi help translate
= help of native; $ sfi native --help; ..; >.. machine code of x86-64; >; >; > Usage: sfi native; ..; >.. -h, --help; >text statuses; >.. native < 
= help of native, said in other words; as sfi native --help; $ sfi native -h; $ sfi help native
";

/// Programs at places of a chip, at high addresses up to the last one, and at the usual ones.
pub(super) const ALLOWED: &str = "8 commands
source
= two letters at places of a chip; text hi; $ sfi build --at 20500000:80000000 | sfi dis
> sandbox 0 code 20500000 256 data 80000000 256 start 20500020 gates 2 init 2; ..; >; > 20500020 80000537 lui x10, 0x80000
> 20500024 00050513 addi x10, x10, 0; ..
= jumps; text jumps; $ sfi build | sfi run; >.. sandbox=0 exit=72 
= jumps at high addresses; text jumps; as sfi build | sfi run; $ sfi build --at 7fffff00:80001000 | sfi run
$ sfi build --at 80000000:7fffe000 | sfi run; $ sfi build --at 80000000:ffffef00 | sfi run; $ sfi build --at ffffff00:80000000 | sfi run
= the usual places; text two sandboxes; as sfi build; $ sfi build --at 01000000:01800000; $ sfi build --at=1000000:1800000 --at 2000000:2800000
";

/// Places that are refused: each sandbox has 256 bytes of code, and a guard zone 4096 addresses.
pub(super) const REFUSED: &str = "10 commands
source; text two sandboxes
= no multiple of the code's size; $ sfi build --at 20500080:80000000; > link fault 6 Place sandbox 0
= no multiple of the data's size; $ sfi build --at 20500000:80000080; > link fault 6 Place sandbox 0
= no room for a guard zone below; $ sfi build --at 20500000:00000f00; > link fault 6 Place sandbox 0
= no room for a guard zone above; $ sfi build --at 20500000:fffff000; > link fault 6 Place sandbox 0
= guard zones that meet its own code; $ sfi build --at 20500000:20501000; > link fault 6 Place sandbox 0
= code where code is; $ sfi build --at 20500000:80000000 --at 20500000:90000000; > link fault 6 Place sandbox 1
= guard zones that meet the first's; $ sfi build --at 20500000:80000000 --at 20501000:80001000; > link fault 6 Place sandbox 1
= code in a guard zone; $ sfi build --at 20500000:80000000 --at 80001000:90000000; > link fault 6 Place sandbox 1
= the second one's usual data are there; $ sfi build --at 20500000:02800000; > link fault 6 Place sandbox 1
= a place more than there are sandboxes; source; texts 16 sandbox
$ sfi build --at 1000000:1800000 --at 2000000:2800000 --at 3000000:3800000 --at 4000000:4800000 --at 5000000:5800000 --at 6000000:6800000 --at 7000000:7800000 --at 8000000:8800000 --at 9000000:9800000 --at a000000:a800000 --at b000000:b800000 --at c000000:c800000 --at d000000:d800000 --at e000000:e800000 --at f000000:f800000 --at 10000000:10800000 --at 11000000:11800000
> link fault 6 Place sandbox 16
";
