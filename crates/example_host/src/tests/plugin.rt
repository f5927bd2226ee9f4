//! A sandbox that turns texts round, called as a function.
use crate::function::{CallError, Function};
use crate::letters::Letters;
use rv_mem::Pages;
use sfi_build::build;
use sfi_check::check;
use sfi_host::{Status, Turn, World};
use std::alloc::Global;
use std::test::Fail;

// At its start the sandbox exits, so that it may be entered. The function begins in the bundle after
// that: it turns the a1 bytes from a0 on round, has the host put them into upper case, and returns
// what the host answered.
const SOURCE: &str = ".sandbox 256
.gate exit 0
.gate upper 1
        call exit
turn:   mv   s0, a0
        mv   s1, a1
        mv   s2, ra
        add  t0, a0, a1
swap:   addi t0, t0, -1
        bgeu a0, t0, turned
        lbu  t1, 0(a0)
        lbu  t2, 0(t0)
        sb   t2, 0(a0)
        sb   t1, 0(t0)
        addi a0, a0, 1
        j    swap
turned: mv   a0, s0
        mv   a1, s1
        call upper
        jr   s2
";

/// The code begins with a stub of 16 bytes for each of two gates, and then has the bundle of the
/// start.
const TURN: Function = Function {
    sandbox: 0,
    address: 0x0100_0030,
    text_address: 0x0180_0000,
    steps: 1000,
};

/// The turn in which the sandbox exits at its start.
const START: Turn = Turn {
    sandbox: 0,
    steps: 10,
};

/// The world of the sandbox before any turn.
fn loaded(alloc: Global) -> Result<World<Pages>, Fail> {
    let image = build(alloc, SOURCE)?;
    let accepted = check(alloc, image.as_slice())?;
    Ok(World::load(alloc, &accepted, Pages::new(alloc))?)
}

#[test]
fn a_function_is_called_twice(rt: HostRuntime) -> Result<(), Fail> {
    let mut world = loaded(rt.alloc())?;
    world.run_plan(&[START], &mut Letters);
    let mut first = *b"plug-in";
    assert_eq!(rt; TURN.call(&mut world, &mut Letters, &mut first), Ok(7));
    assert_eq!(rt; first, *b"NI-GULP");
    let mut second = *b"Level 42";
    assert_eq!(rt; TURN.call(&mut world, &mut Letters, &mut second), Ok(8));
    assert_eq!(rt; second, *b"24 LEVEL");
    Ok(())
}

#[test]
fn a_call_may_fail(rt: HostRuntime) -> Result<(), Fail> {
    let mut world = loaded(rt.alloc())?;
    let far = Function {
        text_address: 0x0180_00c0,
        ..TURN
    };
    let short = Function { steps: 3, ..TURN };
    let mut text = [97; 65];
    let early = TURN.call(&mut world, &mut Letters, &mut text);
    assert_eq!(rt; early, Err(CallError::NotEntered));
    world.run_plan(&[START], &mut Letters);
    let outside = far.call(&mut world, &mut Letters, &mut text);
    assert_eq!(rt; outside, Err(CallError::NoRoom));
    // The host refuses a text of 65 bytes.
    let refused = TURN.call(&mut world, &mut Letters, &mut text);
    assert_eq!(rt; refused, Ok(u32::MAX));
    let unfinished = short.call(&mut world, &mut Letters, &mut text);
    assert_eq!(rt; unfinished, Err(CallError::NotReturned(Status::Ready)));
    Ok(())
}
