//! Worlds over `Segments`. `sfi run`, which the rows of `sfi_tests` try, has its worlds over
//! `Pages`: what a plan, a list of turns, leads to has to be the same.
use super::texts::{HI, READS, YIELDS, world_of};
use sfi_host::{Console, RunAnswer, Status, Turn};
use std::alloc::{AllocError, Global};
use std::process::Abort;
use std::test::Fail;

// A text and its input, the turns of its one sandbox and their steps, and that sandbox's state, steps and output.
struct Case(
    &'static str,
    &'static [u8],
    (u32, u32),
    Status,
    u64,
    &'static [u8],
);

/// The rows of `RUNS` in `sfi_tests` src/tests/rows/runs.rt have the same states, steps and outputs.
const CASES: &[Case] = &[
    Case(HI, b"", (1, 1000), Status::Exited(105), 19, b"Hi"),
    Case(HI, b"", (1000, 1), Status::Exited(105), 19, b"Hi"),
    Case(YIELDS, b"", (3, 1000), Status::Ready, 32, b""),
    Case(YIELDS, b"", (3, 8), Status::Ready, 20, b""),
    Case(READS, b"abc", (1, 1000), Status::Exited(2), 16, b""),
    Case(READS, b"", (1, 1000), Status::Exited(0), 16, b""),
];

/// A plan for sandbox 0. `turns` is how many turns it has, and the most steps of each.
fn plan_of(alloc: Global, turns: (u32, u32)) -> Result<Vec<Turn>, AllocError> {
    let (count, steps) = turns;
    let mut plan = Vec::new(alloc);
    for _ in 0..count {
        plan.push(Turn { sandbox: 0, steps })?;
    }
    Ok(plan)
}

/// Builds and runs the case's text by its plan, and compares status, steps and output with the
/// case's.
fn try_case(rt: &impl Abort, alloc: Global, case: &Case) -> Result<(), AllocError> {
    let Case(text, input, turns, status, steps, output) = case;
    let mut world = world_of(rt, alloc, text)?;
    let plan = plan_of(alloc, *turns)?;
    let mut console = Console::new(alloc, 1, input)?;
    let answer = world.run_plan(plan.as_slice(), &mut console);
    assert_eq!(rt; answer, RunAnswer::Done);
    assert_eq!(rt; world.status(0), Some(*status));
    assert_eq!(rt; world.steps(0), Some(*steps));
    assert_eq!(rt; console.output(0), Some(*output));
    Ok(())
}

/// Each case's run over `Segments`.
#[test]
fn runs_over_segments(rt: HostRuntime) -> Result<(), Fail> {
    for case in CASES {
        try_case(&rt, rt.alloc(), case)?;
    }
    Ok(())
}
