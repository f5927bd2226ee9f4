mod build;
mod image;
mod image_reading;
mod options;
mod rows;
mod scan;
mod stream;

use sfi_tool::run_tool;
use std::alloc::{AllocError, Global};

// What a run printed, and its status.
struct Outcome {
    status: u8,
    text: Vec<u8>,
}

/// The words of a command line, which white space parts; the first is `sfi`. There are no quotes.
fn words_of(alloc: Global, line: &str) -> Result<Vec<String>, AllocError> {
    let mut words = Vec::new(alloc);
    for word in line.split_whitespace() {
        words.push(String::from_str(alloc, word)?)?;
    }
    Ok(words)
}

/// Runs the command line over these bytes as its standard input.
fn run(alloc: Global, line: &str, input: &[u8]) -> Result<Outcome, AllocError> {
    let words = words_of(alloc, line)?;
    let mut reader = input;
    let mut text = Vec::new(alloc);
    let status = run_tool(alloc, words.as_slice(), &mut reader, &mut text);
    Ok(Outcome { status, text })
}
