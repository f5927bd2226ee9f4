//! Sandboxes that their host stops, and what is left of them, as `World::stop` documents it.
use super::entering::{ARGUMENTS, turn, turned};
use super::guests::DATA;
use super::texts::{HI, TRAPS, world_of};
use rv_mem::Segments;
use rv_step::Cause;
use sfi_host::{Later, Status, World};
use std::alloc::Global;
use std::process::Abort;
use std::test::Fail;

/// Whether sandbox 0 has stopped at its start, before its first step, with the byte 7 that its host
/// wrote into its data.
fn is_stopped(world: &World<Segments>) -> bool {
    world.status(0) == Some(Status::Stopped)
        && world.steps(0) == Some(0)
        && world.cpu(0).is_some_and(|cpu| cpu.pc() == 0x0100_0000)
        && world.data_byte(0, DATA + 5) == Some(7)
}

/// `stop` is refused for a sandbox that isn't there or has stopped already, and changes nothing
/// then.
#[test]
fn a_ready_sandbox_is_stopped(rt: HostRuntime) -> Result<(), Fail> {
    let mut world = world_of(&rt, rt.alloc(), TRAPS)?;
    assert!(rt; world.write(0, DATA + 5, &[7]));
    assert!(rt; !world.stop(1));
    assert!(rt; world.stop(0));
    assert!(rt; is_stopped(&world));
    assert!(rt; !world.stop(0));
    assert!(rt; is_stopped(&world));
    Ok(())
}

/// A turn leaves a stopped sandbox as it is; once entered again it runs. One that has trapped can't
/// be stopped.
#[test]
fn a_stopped_sandbox_takes_no_turn_and_is_entered_again(rt: HostRuntime) -> Result<(), Fail> {
    let alloc = rt.alloc();
    let mut world = world_of(&rt, alloc, TRAPS)?;
    assert!(rt; world.write(0, DATA + 5, &[7]));
    assert!(rt; world.stop(0));
    assert_eq!(rt; turned(&mut world, alloc)?, Some(Status::Stopped));
    assert!(rt; is_stopped(&world));
    assert!(rt; world.enter(0, 0x0100_0010, &ARGUMENTS));
    let trapped = Status::Trapped(Cause::Break, 0x0100_0010);
    assert_eq!(rt; turned(&mut world, alloc)?, Some(trapped));
    assert!(rt; !world.stop(0));
    assert_eq!(rt; world.status(0), Some(trapped));
    Ok(())
}

/// The world of the text `hi`, which writes two letters, with its sandbox waiting for the reply to
/// its first call, a put.
fn waiting_world(rt: &impl Abort, alloc: Global) -> Result<World<Segments>, Fail> {
    let mut world = world_of(rt, alloc, HI)?;
    assert!(rt;
        world
            .run_to_call(turn(0))
            .is_some_and(|asked| asked.service == 1)
    );
    Ok(world)
}

// Whether the sandbox waits no more, takes no reply, and takes no step in a turn.
fn takes_nothing(world: &mut World<Segments>) -> bool {
    let reply = Later {
        a0: 1,
        a1: 2,
        exit: None,
    };
    world.waiting(0).is_none() && !world.reply(0, reply) && world.run_to_call(turn(0)).is_none()
}

/// A sandbox that waits for a reply can be stopped, and gets that reply no more, but can be
/// entered.
#[test]
fn a_sandbox_that_waits_is_stopped(rt: HostRuntime) -> Result<(), Fail> {
    let mut world = waiting_world(&rt, rt.alloc())?;
    let steps = world.steps(0);
    assert!(rt; world.stop(0));
    assert!(rt; takes_nothing(&mut world));
    assert_eq!(rt;
        (world.status(0), world.steps(0)),
        (Some(Status::Stopped), steps)
    );
    assert!(rt; world.enter(0, 0x0100_0000, &ARGUMENTS));
    assert_eq!(rt; world.status(0), Some(Status::Ready));
    Ok(())
}
