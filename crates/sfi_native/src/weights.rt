//! How often lines run, as a guess from loops and calls. Code is right by any numbers; these make it fast.
use crate::compilation::target;
use crate::line::Line;
use rv_word::Instr;
use std::alloc::{AllocError, Global};
use std::collections::BTreeMap;

/// A line runs eight times as often for each loop around it, up to so many loops.
const DEPTH_MOST: u32 = 6;

/// A function runs at most so often.
const OFTEN_MOST: u64 = 0x1_0000_0000;

/// How many times `called_often` passes numbers from callers to the functions that they call: so a
/// caller counts for functions up to so many calls away.
const ROUNDS: u32 = 8;

/// Functions by number, in the order of their addresses. The lines before the first that is called are a function, too.
#[derive(Drop)]
struct Functions {
    /// Where each begins.
    starts: Vec<u32>,
    /// The number of the one that begins at an address.
    numbers: BTreeMap<u32, usize>,
    /// For each line the number of the one that it lies in.
    of_lines: Vec<usize>,
}

/// The address that a line calls: it is a jal that writes its return address to a register. None for
/// others.
fn called(line: &Line) -> Option<u32> {
    match line {
        Line::Does {
            instr: Instr::Jal { rd, .. },
            ..
        } if rd.number() != 0 => target(line),
        _ => None,
    }
}

/// The addresses that calls go to.
fn called_addresses(alloc: Global, lines: &[Line]) -> Result<BTreeMap<u32, ()>, AllocError> {
    let mut found = BTreeMap::new(alloc);
    for line in lines {
        if let Some(to) = called(line) {
            found.insert(to, ())?;
        }
    }
    Ok(found)
}

/// The functions: one begins at each address that is called.
fn functions_of(alloc: Global, lines: &[Line]) -> Result<Functions, AllocError> {
    let called = called_addresses(alloc, lines)?;
    let mut functions = Functions {
        starts: vec![in alloc; 0; 1]?,
        numbers: BTreeMap::new(alloc),
        of_lines: Vec::new(alloc),
    };
    for line in lines {
        if let Line::Does { at, .. } = line {
            if called.get(at).is_some() {
                functions.numbers.insert(*at, functions.starts.len())?;
                functions.starts.push(*at)?;
            }
        }
        functions
            .of_lines
            .push(functions.starts.len().saturating_sub(1))?;
    }
    Ok(functions)
}

impl Functions {
    /// The number of the function that a line lies in, and where it begins.
    fn at(&self, line: usize) -> (usize, u32) {
        let number = match self.of_lines.get(line) {
            Some(number) => *number,
            None => 0,
        };
        match self.starts.get(number) {
            Some(start) => (number, *start),
            None => (number, 0),
        }
    }

    /// The address that the line of number `n` jumps back to within its function, where a loop
    /// begins; None if it doesn't jump so.
    fn loop_start(&self, n: usize, line: &Line) -> Option<u32> {
        let Line::Does { at, .. } = line else {
            return None;
        };
        match (called(line), target(line)) {
            (None, Some(to)) if to <= *at && to >= self.at(n).1 => Some(to),
            _ => None,
        }
    }
}

/// How many loops are around each line: a loop is what lies between a jump back and its target, once for each target.
fn depths_of(alloc: Global, lines: &[Line], functions: &Functions) -> Result<Vec<u32>, AllocError> {
    let mut depths = vec![in alloc; 0; lines.len()]?;
    let mut starts = BTreeMap::new(alloc);
    let mut depth = 0_u32;
    for (n, line) in lines.iter().enumerate().rev() {
        if let Some(to) = functions.loop_start(n, line) {
            if starts.insert(to, ())?.is_none() {
                depth = depth.saturating_add(1);
            }
        }
        if let Some(it) = depths.get_mut(n) {
            *it = depth;
        }
        if let Line::Does { at, .. } = line {
            if starts.remove(at).is_some() {
                depth = depth.saturating_sub(1);
            }
        }
    }
    Ok(depths)
}

/// How often a line in so many loops runs where its function runs once.
fn times_in(depth: u32) -> u64 {
    1 << (3 * depth.min(DEPTH_MOST))
}

/// A call, or a jump to where a function begins: from one function to another, and how often where the first runs once.
#[derive(Clone, Copy)]
struct Call {
    from: usize,
    to: usize,
    times: u64,
}

/// The calls and jumps from one function to another's start. `depths` is how many loops are around
/// each line.
fn calls_of(
    alloc: Global,
    lines: &[Line],
    functions: &Functions,
    depths: &[u32],
) -> Result<Vec<Call>, AllocError> {
    let mut calls = Vec::new(alloc);
    for (n, line) in lines.iter().enumerate() {
        let (from, _) = functions.at(n);
        let Some(to) = target(line) else {
            continue;
        };
        match (functions.numbers.get(&to), depths.get(n)) {
            (Some(to), Some(depth)) if *to != from => calls.push(Call {
                from,
                to: *to,
                times: times_in(*depth),
            })?,
            _ => {}
        }
    }
    Ok(calls)
}

/// How often each function runs, by how often its callers do in `often`: once, and as often as they
/// call it.
fn called_often(alloc: Global, often: &[u64], calls: &[Call]) -> Result<Vec<u64>, AllocError> {
    let mut next: Vec<u64> = vec![in alloc; 1; often.len()]?;
    for call in calls {
        if let (Some(callers), Some(it)) = (often.get(call.from), next.get_mut(call.to)) {
            *it = it
                .saturating_add(callers.saturating_mul(call.times))
                .min(OFTEN_MOST);
        }
    }
    Ok(next)
}

/// A guess how often each line runs, in the order of lines; at least 1.
pub(crate) fn weights_of(alloc: Global, lines: &[Line]) -> Result<Vec<u64>, AllocError> {
    let functions = functions_of(alloc, lines)?;
    let depths = depths_of(alloc, lines, &functions)?;
    let calls = calls_of(alloc, lines, &functions, &depths)?;
    let mut often: Vec<u64> = vec![in alloc; 1; functions.starts.len()]?;
    for _ in 0..ROUNDS {
        often = called_often(alloc, &often, &calls)?;
    }
    let mut weights = Vec::new(alloc);
    for (n, depth) in depths.iter().enumerate() {
        let callers = match often.get(functions.at(n).0) {
            Some(callers) => *callers,
            None => 1,
        };
        weights.push(callers.saturating_mul(times_in(*depth)))?;
    }
    Ok(weights)
}
