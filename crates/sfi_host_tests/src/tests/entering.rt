//! A world of one sandbox: what is asked of it, its data from outside, and how the sandbox is entered again.
use super::guests::{DATA, REGION};
use super::texts::{TRAPS, world_of};
use rv_mem::{Memory, Segments, Width};
use rv_step::Cause;
use rv_word::Reg;
use sfi_host::{Console, RunAnswer, Status, Turn, World};
use std::alloc::Global;
use std::process::Abort;
use std::test::Fail;

/// Whether the world has one sandbox, which is at its start and has taken no step.
fn is_fresh(world: &World<Segments>) -> bool {
    let is_first = match world.cpu(0) {
        Some(cpu) => cpu.pc() == 0x0100_0000 && cpu.reg(Reg::numbered(27)) == 255,
        None => false,
    };
    world.len() == 1
        && world.status(0) == Some(Status::Ready)
        && world.steps(0) == Some(0)
        && world.data_region(0) == Some(REGION)
        && is_first
}

/// A loaded sandbox is at its start, with its data mask in x27.
#[test]
fn a_world_before_its_first_turn(rt: HostRuntime) -> Result<(), Fail> {
    let world = world_of(&rt, rt.alloc(), TRAPS)?;
    assert!(rt; is_fresh(&world));
    Ok(())
}

// An address, and the data byte there.
const BYTES: &[(u32, Option<u8>)] = &[
    (DATA - 1, None),
    (DATA, Some(0)),
    (DATA + 255, Some(0)),
    (DATA + 256, None),
];

/// `data_byte` gives the data's bytes, and `None` for an address outside the data region.
#[test]
fn data_of_a_world(rt: HostRuntime) -> Result<(), Fail> {
    let world = world_of(&rt, rt.alloc(), TRAPS)?;
    for (address, byte) in BYTES {
        assert_eq!(rt; world.data_byte(0, *address), *byte);
    }
    Ok(())
}

/// A turn of at most 1000 steps of this sandbox.
pub(super) fn turn(sandbox: u32) -> Turn {
    Turn {
        sandbox,
        steps: 1000,
    }
}

/// Whether sandbox 0 has trapped at an `ebreak` at this address, before its first step.
fn has_trapped(world: &World<Segments>, address: u32) -> bool {
    world.status(0) == Some(Status::Trapped(Cause::Break, address)) && world.steps(0) == Some(0)
}

/// A plan with turns of a sandbox that isn't there, of one that traps, and of that again: the first
/// and the last change nothing. The memory then holds the code, and nothing in a guard zone.
#[test]
fn a_sandbox_traps(rt: HostRuntime) -> Result<(), Fail> {
    let mut console = Console::new(rt.alloc(), 1, &[])?;
    let mut world = world_of(&rt, rt.alloc(), TRAPS)?;
    let turns = [turn(1), turn(0), turn(0)];
    assert_eq!(rt; world.run_plan(&turns, &mut console), RunAnswer::Done);
    world.stays_safe();
    assert!(rt; has_trapped(&world, 0x0100_0000));
    let memory = world.into_memory();
    let first = memory.load(0x0100_0000, Width::Four);
    assert_eq!(rt;
        (first, memory.load(DATA - 1, Width::One)),
        (Some(0x0010_0073), None)
    );
    Ok(())
}

/// Whether all that can be asked about sandbox `sandbox` is answered with `None`.
fn knows_none(world: &World<Segments>, sandbox: u32) -> bool {
    world.status(sandbox) == None
        && world.steps(sandbox) == None
        && world.data_region(sandbox) == None
        && world.data_byte(sandbox, DATA) == None
        && world.cpu(sandbox).is_none()
}

/// Sandboxes count from 0, so a world of one has no sandbox 1.
#[test]
fn no_sandbox_is_there(rt: HostRuntime) -> Result<(), Fail> {
    let world = world_of(&rt, rt.alloc(), TRAPS)?;
    assert!(rt; knows_none(&world, 1));
    Ok(())
}

/// Whether three bytes are written at the data's end, and a write is refused whose bytes begin
/// before the data, end after them, or are of a sandbox that isn't there.
fn is_written(world: &mut World<Segments>) -> bool {
    world.write(0, DATA + 253, &[1, 2, 3])
        && !world.write(0, DATA + 254, &[4, 5, 6])
        && !world.write(0, DATA - 1, &[4])
        && !world.write(1, DATA, &[4])
}

/// Whether reads have the same limits, give what `is_written` wrote, and, where they are refused,
/// leave the caller's bytes as they were.
fn is_read(world: &World<Segments>) -> bool {
    let mut bytes = [9, 9, 9];
    !world.read(0, DATA + 254, &mut bytes)
        && !world.read(1, DATA, &mut bytes)
        && bytes == [9, 9, 9]
        && world.read(0, DATA + 253, &mut bytes)
        && bytes == [1, 2, 3]
}

/// A host reads and writes a sandbox's data, but nothing else.
#[test]
fn data_are_read_and_written_from_outside(rt: HostRuntime) -> Result<(), Fail> {
    let mut world = world_of(&rt, rt.alloc(), TRAPS)?;
    assert!(rt; is_written(&mut world));
    assert!(rt; is_read(&world));
    Ok(())
}

/// Takes one turn of sandbox 0, with a console of its own as the host; gives that sandbox's status
/// then.
pub(super) fn turned(world: &mut World<Segments>, alloc: Global) -> Result<Option<Status>, Fail> {
    let mut console = Console::new(alloc, 1, &[])?;
    world.run_plan(&[turn(0)], &mut console);
    Ok(world.status(0))
}

/// The arguments of a function that is called, in a0 (x10) to a7 (x17).
pub(super) const ARGUMENTS: [u32; 8] = [11, 12, 13, 14, 15, 16, 17, 18];

/// Of a world whose sandbox 0 has trapped: tries to enter it within a bundle, after its code, and in
/// sandbox 1, which isn't there. Each has to be refused and leave the trap. Then it enters sandbox 0 at
/// its second bundle, where it has to be ready.
fn enters_only_at_bundles(world: &mut World<Segments>) -> bool {
    !world.enter(0, 0x0100_0008, &ARGUMENTS)
        && !world.enter(0, 0x0100_0100, &ARGUMENTS)
        && !world.enter(1, 0x0100_0010, &ARGUMENTS)
        && world.status(0) == Some(Status::Trapped(Cause::Break, 0x0100_0000))
        && world.enter(0, 0x0100_0010, &ARGUMENTS)
        && world.status(0) == Some(Status::Ready)
        && world.cpu(0).is_some_and(|cpu| cpu.pc() == 0x0100_0010)
}

/// A sandbox can't be entered while it is ready. After its trap it can, and its code runs from
/// there.
#[test]
fn a_sandbox_is_entered_again(rt: HostRuntime) -> Result<(), Fail> {
    let alloc = rt.alloc();
    let mut world = world_of(&rt, alloc, TRAPS)?;
    assert!(rt; !world.enter(0, 0x0100_0010, &ARGUMENTS));
    turned(&mut world, alloc)?;
    assert!(rt; enters_only_at_bundles(&mut world));
    let again = Status::Trapped(Cause::Break, 0x0100_0010);
    assert_eq!(rt; turned(&mut world, alloc)?, Some(again));
    Ok(())
}

/// A register's number, and its value once the sandbox is entered with `ARGUMENTS`: x2 is the stack
/// pointer, 16 below the data's end; x24 to x27 are code base, code mask, data base and data mask.
const REGISTERS: &[(u8, u32)] = &[
    (0, 0),
    (1, 0),
    (2, DATA + 240),
    (9, 0),
    (10, 11),
    (17, 18),
    (18, 0),
    (24, 0x0100_0000),
    (25, 240),
    (26, DATA),
    (27, 255),
    (31, 0),
];

/// Each row of `REGISTERS`, as `World::enter` documents them.
#[test]
fn an_entered_sandbox_has_fresh_registers(rt: HostRuntime) -> Result<(), Fail> {
    let alloc = rt.alloc();
    let mut world = world_of(&rt, alloc, TRAPS)?;
    turned(&mut world, alloc)?;
    assert!(rt; world.enter(0, 0x0100_0010, &ARGUMENTS));
    let cpu = world.cpu(0).expect(&rt, "a sandbox");
    for (number, value) in REGISTERS {
        let register = Reg::new(*number).expect(&rt, "a register");
        assert_eq!(rt; cpu.reg(register), *value, "x{number}");
    }
    Ok(())
}

/// A function that returns the sum of its two arguments. The gate of exit isn't the first, and lies
/// at 01000010; `sum` lies at 01000030.
const SUM: &str = ".sandbox 256
.gate put 1
.gate exit 0
        call exit
sum:    add  a0, a0, a1
        ret
";

/// A function that is entered returns to the gate of exit, whose address is in x1: its result is
/// the number that the sandbox exits with.
#[test]
fn a_function_returns_by_the_gate_of_exit(rt: HostRuntime) -> Result<(), Fail> {
    let alloc = rt.alloc();
    let mut world = world_of(&rt, alloc, SUM)?;
    assert_eq!(rt; turned(&mut world, alloc)?, Some(Status::Exited(0)));
    assert!(rt; world.enter(0, 0x0100_0030, &ARGUMENTS));
    let cpu = world.cpu(0).expect(&rt, "a sandbox");
    assert_eq!(rt; cpu.reg(Reg::numbered(1)), 0x0100_0010);
    assert_eq!(rt; turned(&mut world, alloc)?, Some(Status::Exited(11 + 12)));
    Ok(())
}

// The last import of a table: its number, the length of its name and the name, the table's magic; and
// how far below the data's end the stack pointer of a function lies then. The data have 256 bytes.
const ROOMS: &[(u32, &str, &str, u32)] = &[
    (0, ROOM, MAGIC, 16),
    (64, ROOM, MAGIC, 80),
    (240, ROOM, MAGIC, 256),
    (241, ROOM, MAGIC, 16),
    (0xffff_ffff, ROOM, MAGIC, 16),
    (64, "5, 46, 114, 111, 111, 110", MAGIC, 16),
    (64, "4, 46, 114, 111, 111, 109", MAGIC, 16),
    (64, ROOM, "83, 70, 73, 79", 16),
    (64, ROOM, "83, 70, 73, 78, 0", 16),
];

/// The name of the import that asks for room, `.room`, as a table of names has it: its length, and
/// its bytes.
const ROOM: &str = "5, 46, 114, 111, 111, 109";

/// The magic with which a table of names ends, `SFIN`.
const MAGIC: &str = "83, 70, 73, 78";

/// An entered function's stack pointer lies 16 bytes below the data's end, and lower by the room
/// that the table's last import asks for, if its name and the magic are right and the data have
/// that room. The stack pointer at the start doesn't depend on it.
#[test]
fn a_function_has_the_room_that_its_image_asks_for(rt: HostRuntime) -> Result<(), Fail> {
    let alloc = rt.alloc();
    for (room, name, magic, below) in ROOMS {
        let text = format!(in alloc;
            ".sandbox 256\nebreak\n.data\n.word {room}\n\
            .byte {name}\n.word 0, 0, 10\n.byte {magic}\n"
        )?;
        let mut world = world_of(&rt, alloc, text.as_str())?;
        assert_eq!(rt; stack_of(&rt, &world), DATA + 240);
        assert!(rt; world.stop(0));
        assert!(rt; world.enter(0, 0x0100_0000, &ARGUMENTS));
        assert_eq!(rt; stack_of(&rt, &world), DATA + 256 - below);
    }
    Ok(())
}

/// The stack pointer x2 of sandbox 0.
fn stack_of(rt: &impl Abort, world: &World<Segments>) -> u32 {
    world.cpu(0).expect(rt, "a sandbox").reg(Reg::numbered(2))
}
