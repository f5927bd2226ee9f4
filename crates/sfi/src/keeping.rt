//! A reader and a writer that keep the beginning of what goes through them, from which
//! `explaining.rt` says what a fault is.

use std::io::{self, Read, Write};

/// Keeps at most `most` of the bytes that its reader gives.
#[derive(Drop)]
pub(crate) struct KeptInput<R> {
    pub(crate) reader: R,
    pub(crate) most: usize,
    pub(crate) bytes: Vec<u8>,
}

/// Keeps at most `most` of the bytes that its writer takes.
#[derive(Drop)]
pub(crate) struct KeptOutput<W> {
    pub(crate) writer: W,
    pub(crate) most: usize,
    pub(crate) bytes: Vec<u8>,
}

/// Appends the front of `more` to `bytes`, which get at most `most` bytes. Where memory is refused
/// nothing is kept of it, and that is no error.
fn keep(bytes: &mut Vec<u8>, most: usize, more: &[u8]) {
    let room = most.saturating_sub(bytes.len()).min(more.len());
    let _ = bytes.extend_from_slice(&more[..room]);
}

impl<R: Read> Read for KeptInput<R> {
    fn read(&mut self, buf: &mut [u8]) -> io::Result<usize> {
        let count = self.reader.read(buf)?;
        keep(&mut self.bytes, self.most, &buf[..count]);
        Ok(count)
    }
}

impl<W: Write> Write for KeptOutput<W> {
    fn write(&mut self, buf: &[u8]) -> io::Result<usize> {
        let count = self.writer.write(buf)?;
        keep(&mut self.bytes, self.most, &buf[..count]);
        Ok(count)
    }

    fn flush(&mut self) -> io::Result<()> {
        self.writer.flush()
    }
}
