//! Bytes as streams, of which reads give a few at a time, or fail: the verdict is the same, or says
//! that a read failed.
use super::rows::image_of;
use super::{Outcome, words_of};
use sfi_check::{StreamAnswer, check_stream};
use sfi_image::{ByteSource, ReadFault, ReaderSource};
use sfi_tool::run_tool;
use std::alloc::{AllocError, Global};
use std::io::{self, ErrorKind, Read};
use std::process::Abort;
use std::test::Fail;

/// A reader that gives at most `step` bytes of `rest` at a call. After `calls` calls each further
/// one fails.
#[derive(Drop)]
struct Pieces<'a> {
    rest: &'a [u8],
    step: usize,
    calls: usize,
}

impl<'a> Pieces<'a> {
    /// A reader of these bytes, as the fields say.
    fn new(rest: &'a [u8], step: usize, calls: usize) -> Pieces<'a> {
        Pieces { rest, step, calls }
    }
}

impl<'a> Read for Pieces<'a> {
    /// Gives the next bytes, at most `step` and as many as `buf` holds, or 0 at the end; fails, as
    /// an interrupted read does, where `calls` is 0.
    fn read(&mut self, buf: &mut [u8]) -> io::Result<usize> {
        if self.calls == 0 {
            return Err(io::Error::from(ErrorKind::Interrupted));
        }
        self.calls -= 1;
        let len = buf.len().min(self.step);
        self.rest.read(&mut buf[..len])
    }
}

/// Runs the command over the bytes, of which a read gives at most 7, so that bundles come in
/// pieces; of more than 7000 bytes about a thousandth, which bounds the count of reads.
pub(super) fn run_in_pieces(
    alloc: Global,
    line: &str,
    bytes: &[u8],
) -> Result<Outcome, AllocError> {
    let words = words_of(alloc, line)?;
    let mut reader = Pieces::new(bytes, bytes.len().div_ceil(1000).max(7), usize::MAX);
    let mut text = Vec::new(alloc);
    let status = run_tool(alloc, words.as_slice(), &mut reader, &mut text);
    Ok(Outcome { status, text })
}

/// Tries that the smallest image, whose bytes are `bytes`, is accepted where `enough` reads of
/// `step` bytes work, and that a failed read is answered where fewer do.
fn try_reads(rt: &impl Abort, bytes: &[u8], step: usize, enough: usize) {
    for calls in 0..=enough {
        let mut reader = Pieces::new(bytes, step, calls);
        let mut source = ReaderSource::new(&mut reader);
        let answer = if calls < enough {
            StreamAnswer::ReadFault
        } else {
            StreamAnswer::Accepted {
                sandboxes: 1,
                bundles: 16,
            }
        };
        assert_eq!(rt; check_stream(&mut source), answer, "{calls} by {step}");
    }
}

/// The smallest image has 292 bytes, so 42 reads of 7 or 3 of 100 take it, and one more finds its
/// end. Each of them fails once.
#[test]
fn failing_streams(rt: HostRuntime) -> Result<(), Fail> {
    let bytes = image_of(rt.alloc(), "")?;
    try_reads(&rt, bytes.as_slice(), 7, 43);
    try_reads(&rt, bytes.as_slice(), 100, 4);
    Ok(())
}

/// A source remembers that a read failed (`failed`), and the fault has a text.
#[test]
fn failed_reads(rt: HostRuntime) -> Result<(), Fail> {
    let alloc = rt.alloc();
    let mut reader = Pieces::new(b"", 1, 0);
    let mut source = ReaderSource::new(&mut reader);
    assert_eq!(rt; source.read_some(&mut [0]), Err(ReadFault));
    assert!(rt; source.failed());
    let text = format!(in alloc; "{}", ReadFault)?;
    assert_eq!(rt; text.as_str(), "a read failed");
    Ok(())
}
