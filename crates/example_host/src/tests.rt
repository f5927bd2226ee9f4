//! Two sandboxes that exchange a value through the store.
mod plugin;

use crate::store::Store;
use rv_mem::{Memory, Pages};
use sfi_build::build;
use sfi_check::check;
use sfi_host::{RunAnswer, Status, Turn, World};
use std::test::Fail;

// The first puts 42 under the key 7, and exits with what put answers. The second asks for the key
// until it has a value, and exits with that.
const SOURCE: &str = ".sandbox 256
.gate exit 0
.gate put 1
        li   a0, 7
        li   a1, 42
        call put
        call exit
.sandbox 256
.gate exit 0
.gate get 2
.gate yield 3
wait:   li   a0, 7
        call get
        bnez a1, found
        call yield
        j    wait
found:  call exit
";

/// Turns of 100 steps: the second sandbox asks too early, and again after the put of the first.
const PLAN: [Turn; 3] = [
    Turn {
        sandbox: 1,
        steps: 100,
    },
    Turn {
        sandbox: 0,
        steps: 100,
    },
    Turn {
        sandbox: 1,
        steps: 100,
    },
];

// Takes the turns of a plan. Where a put finds no memory it tries the rest once more,
// from the turn of that put on.
fn run<M: Memory>(world: &mut World<M>, plan: &[Turn], store: &mut Store) -> RunAnswer {
    match world.run_plan(plan, store) {
        RunAnswer::Memory { turn } => world.run_plan(&plan[turn..], store),
        RunAnswer::Done => RunAnswer::Done,
    }
}

#[test]
fn two_sandboxes_exchange_a_value(rt: HostRuntime) -> Result<(), Fail> {
    let alloc = rt.alloc();
    let image = build(alloc, SOURCE)?;
    let accepted = check(alloc, image.as_slice())?;
    let mut world = World::load(alloc, &accepted, Pages::new(alloc))?;
    let mut store = Store::new(alloc);
    assert_eq!(rt; run(&mut world, &PLAN[..1], &mut store), RunAnswer::Done);
    assert_eq!(rt; world.status(1), Some(Status::Ready));
    assert_eq!(rt; run(&mut world, &PLAN[1..], &mut store), RunAnswer::Done);
    assert_eq!(rt; world.status(0), Some(Status::Exited(0)));
    assert_eq!(rt; world.status(1), Some(Status::Exited(42)));
    assert_eq!(rt; (store.value(7), store.value(42)), (Some(42), None));
    Ok(())
}

#[test]
fn a_store_has_room_for_64_keys(rt: HostRuntime) -> Result<(), Fail> {
    let mut store = Store::new(rt.alloc());
    for key in 0..64 {
        assert!(rt; store.put(key, key)?);
    }
    assert!(rt; !store.put(64, 1)?);
    assert!(rt; store.put(63, 1)?);
    assert_eq!(rt; (store.value(63), store.value(64)), (Some(1), None));
    Ok(())
}
