//! Each service of the console, called over a memory, without an image. What it answers is what
//! docs/GATES.md says. Services are exit 0, put 1, get 2, yield 3, post 4 and take 5; the console
//! serves the sandboxes 0 and 1.

use super::guests::{DATA, call, memory, request};
use rv_mem::{Memory, Width};
use sfi_host::{Console, GateAnswer};

/// a0 after a refused call.
const FAILED: u32 = 0xffff_ffff;

// A call, as its caller, its service, a0 and a1; the answer; and a0 after it. a1 stays.
type Served = ((u32, u32, u32, u32), GateAnswer, u32);

/// The calls in their order: each finds what those before it left.
const SERVED: &[Served] = &[
    // Exit and yield serve any caller.
    ((2, 0, 7, 8), GateAnswer::Exit(7), 7),
    ((2, 3, 7, 8), GateAnswer::Yield, 7),
    // Put.
    ((0, 1, DATA, 2), GateAnswer::Replied, 2),
    ((1, 1, DATA + 1, 1), GateAnswer::Replied, 1),
    ((0, 1, DATA + 1, 1), GateAnswer::Replied, 1),
    ((0, 1, 0, 0), GateAnswer::Replied, 0),
    ((0, 1, DATA + 255, 2), GateAnswer::Replied, FAILED),
    ((0, 1, DATA - 1, 2), GateAnswer::Replied, FAILED),
    ((0, 1, FAILED, 2), GateAnswer::Replied, FAILED),
    ((0, 1, DATA, 65537), GateAnswer::Replied, FAILED),
    // Get: the range that a1 names has to be there.
    ((0, 2, DATA + 255, 2), GateAnswer::Replied, FAILED),
    ((0, 2, DATA + 254, 2), GateAnswer::Replied, 2),
    ((1, 2, DATA + 4, 1), GateAnswer::Replied, 1),
    ((0, 2, DATA + 8, 9), GateAnswer::Replied, 1),
    ((0, 2, DATA + 8, 9), GateAnswer::Replied, 0),
    ((0, 2, 0, 0), GateAnswer::Replied, 0),
    // No other service is served, and no caller without a session.
    ((0, 6, 1, 8), GateAnswer::Replied, FAILED),
    ((2, 1, DATA, 1), GateAnswer::Replied, FAILED),
    ((2, 2, DATA, 1), GateAnswer::Replied, FAILED),
    ((2, 4, 1, 8), GateAnswer::Replied, FAILED),
    ((2, 5, 1, 8), GateAnswer::Replied, FAILED),
];

/// Answers, then what was put by each sandbox, and what gets wrote into the data, with `abc` as the
/// input of each. The byte after the data stays.
#[test]
fn a_console_serves(rt: HostRuntime) {
    let mut memory = memory(&rt, rt.alloc(), &[72, 105]);
    let mut console = Console::new(rt.alloc(), 2, &[97, 98, 99]).expect(&rt, "memory");
    for (asked, answer, told) in SERVED {
        let (sandbox, service, a0, a1) = *asked;
        let after = call(&mut console, &mut memory, request(sandbox, service, a0, a1));
        assert_eq!(rt; after, (*answer, *told, a1), "{asked:?}");
    }
    assert_eq!(rt; console.output(0), Some(&[72, 105, 105][..]));
    assert_eq!(rt; console.output(1), Some(&[105][..]));
    assert_eq!(rt; console.output(2), None);
    assert_eq!(rt; memory.load(DATA + 254, Width::Two), Some(0x6261));
    assert_eq!(rt; memory.load(DATA + 4, Width::Two), Some(0x0061));
    assert_eq!(rt; memory.load(DATA + 8, Width::Two), Some(0x0063));
    assert_eq!(rt; memory.load(DATA + 256, Width::One), Some(2));
}

/// A call that is replied to, as its caller, its service, a0 and a1; and a0 and a1 after it. A post
/// has the addressee in a0 and the word in a1; a take gives the word in a0, and in a1 its sender's
/// number plus 1, or 0 where the mailbox is empty.
type Passed = ((u32, u32, u32, u32), u32, u32);

/// The calls in their order: each finds what those before it left.
const PASSED: &[Passed] = &[
    // Post: to the other, to itself, and to none.
    ((0, 4, 1, 7), 0, 7),
    ((1, 4, 1, FAILED), 0, FAILED),
    ((0, 4, 2, 9), FAILED, 9),
    ((0, 4, FAILED, 9), FAILED, 9),
    // Take: each has a mailbox of its own.
    ((0, 5, 3, 4), 0, 0),
    ((1, 5, 3, 4), 7, 1),
    ((1, 5, 3, 4), FAILED, 2),
    ((1, 5, 3, 4), 0, 0),
];

/// Words that are posted and taken, and a mailbox that is full at the 17th.
#[test]
fn a_console_passes_words_on(rt: HostRuntime) {
    let mut memory = memory(&rt, rt.alloc(), &[72, 105]);
    let mut console = Console::new(rt.alloc(), 2, &[]).expect(&rt, "memory");
    for (asked, a0, a1) in PASSED {
        let (sandbox, service, first, second) = *asked;
        let after = call(
            &mut console,
            &mut memory,
            request(sandbox, service, first, second),
        );
        assert_eq!(rt; after, (GateAnswer::Replied, *a0, *a1), "{asked:?}");
    }
    // A mailbox holds 16 words, and gives them back in their order.
    for word in 100..117 {
        let told = call(&mut console, &mut memory, request(1, 4, 0, word));
        let a0 = if word < 116 { 0 } else { 1 };
        assert_eq!(rt; told, (GateAnswer::Replied, a0, word));
    }
    for word in 100..116 {
        let told = call(&mut console, &mut memory, request(0, 5, 0, 0));
        assert_eq!(rt; told, (GateAnswer::Replied, word, 2));
    }
    let told = call(&mut console, &mut memory, request(0, 5, 0, 0));
    assert_eq!(rt; told, (GateAnswer::Replied, 0, 0));
}
