//! A world that gets the sandbox of another image, and loses one.
use super::entering::turned;
use super::texts::{TRAPS, module_at, world_of};
use rv_mem::Segments;
use rv_step::Cause;
use sfi_formats::Place;
use sfi_host::{AddError, Module, RemoveError, Status, World};
use std::alloc::Global;
use std::process::Abort;
use std::test::Fail;

/// Where the code and the data of a second sandbox lie, and the answer. The first one's code has 256
/// bytes from 01000000 on, its data 256 from 01800000 on. The code, data and guard zones of one, which
/// are the 4096 addresses on each side of its data, may have no address in common with those of the
/// other.
struct Case(u32, u32, Result<u32, AddError>);

const CASES: &[Case] = &[
    Case(0x0200_0000, 0x0180_2100, Ok(1)),
    Case(0x0200_0000, 0x0180_2000, Err(AddError::Meets)),
    Case(0x0180_1000, 0x0200_0000, Err(AddError::Meets)),
    Case(0x0180_1100, 0x0200_0000, Ok(1)),
    Case(0x0100_0100, 0x0200_0000, Ok(1)),
    Case(0x0100_0000, 0x0200_0000, Err(AddError::Meets)),
];

/// Adds the case's sandbox to a world whose sandbox has trapped. Tries that the answer is the case's,
/// that the first sandbox is as it was, and that the second is ready, if it was added.
fn try_case(rt: &impl Abort, alloc: Global, case: &Case) -> Result<(), Fail> {
    let Case(code_base, data_base, wanted) = *case;
    let mut world = world_of(rt, alloc, TRAPS)?;
    let trapped = Some(Status::Trapped(Cause::Break, 0x0100_0000));
    assert_eq!(rt; turned(&mut world, alloc)?, trapped);
    let place = Place {
        code_base,
        data_base,
    };
    let module = module_at(rt, alloc, TRAPS, place)?;
    let answer = world.add(alloc, &module, Segments::new(alloc));
    assert_eq!(rt; answer, wanted);
    let (count, second) = match answer {
        Ok(_) => (2, Some(Status::Ready)),
        Err(_) => (1, None),
    };
    assert_eq!(rt; world.len(), count);
    assert_eq!(rt; (world.status(0), world.status(1)), (trapped, second));
    Ok(())
}

/// Places next to each other that just have no address in common, and such that have.
#[test]
fn what_lies_apart_is_added(rt: HostRuntime) -> Result<(), Fail> {
    for case in CASES {
        try_case(&rt, rt.alloc(), case)?;
    }
    Ok(())
}

/// Where a second sandbox meets nothing of the first.
const BESIDE: Place = Place {
    code_base: 0x0200_0000,
    data_base: 0x0180_2100,
};

/// A world of one sandbox, and then a second one, of `module`.
fn world_with(rt: &impl Abort, alloc: Global, module: &Module) -> Result<World<Segments>, Fail> {
    let mut world = world_of(rt, alloc, TRAPS)?;
    assert_eq!(rt; world.add(alloc, module, Segments::new(alloc)), Ok(1));
    Ok(world)
}

/// Once the first sandbox is removed the second is number 0.
#[test]
fn what_is_left_is_counted_anew(rt: HostRuntime) -> Result<(), Fail> {
    let alloc = rt.alloc();
    let module = module_at(&rt, alloc, TRAPS, BESIDE)?;
    let mut world = world_with(&rt, alloc, &module)?;
    let missing = world.remove(alloc, 2, Segments::new(alloc));
    assert_eq!(rt; missing, Err(RemoveError::Missing));
    assert_eq!(rt; world.remove(alloc, 0, Segments::new(alloc)), Ok(()));
    assert_eq!(rt;
        (world.status(0), world.status(1)),
        (Some(Status::Ready), None)
    );
    assert_eq!(rt; world.data_byte(0, BESIDE.data_base), Some(0));
    Ok(())
}

/// While the second sandbox is there it can't be added a second time; once it is removed, too, it can.
#[test]
fn what_is_removed_leaves_its_room(rt: HostRuntime) -> Result<(), Fail> {
    let alloc = rt.alloc();
    let module = module_at(&rt, alloc, TRAPS, BESIDE)?;
    let mut world = world_with(&rt, alloc, &module)?;
    assert_eq!(rt; world.remove(alloc, 0, Segments::new(alloc)), Ok(()));
    let again = world.add(alloc, &module, Segments::new(alloc));
    assert_eq!(rt; again, Err(AddError::Meets));
    assert_eq!(rt; world.remove(alloc, 0, Segments::new(alloc)), Ok(()));
    assert_eq!(rt; world.len(), 0);
    assert_eq!(rt; world.add(alloc, &module, Segments::new(alloc)), Ok(0));
    Ok(())
}
