//! The job's streams: input lines of a bounded length, and why a read or a write failed.

use std::io::{self, ErrorKind, Read, Write};

/// The bytes of a line that are kept: one more than the longest message has.
const MOST_KEPT: usize = 16_385;

/// An input of lines. A line that is longer than any message is cut to 16,385 bytes, one more than
/// a message may have: the desk answers `TooLong` to that as well, and memory is kept for no more.
#[derive(Drop)]
pub struct Lines<R> {
    inner: R,
    /// How many bytes of the line were passed on.
    kept: usize,
    failed: Option<io::Error>,
}

impl<R> Lines<R> {
    /// The lines of a reader, at whose beginning a line begins.
    pub fn new(inner: R) -> Lines<R> {
        Lines {
            inner,
            kept: 0,
            failed: None,
        }
    }

    /// Why the last read failed, if it did.
    pub(crate) fn failed(&self) -> Option<io::Error> {
        self.failed
    }

    /// Whether a byte is passed on.
    fn keeps(&mut self, byte: u8) -> bool {
        if byte == b'\n' {
            self.kept = 0;
            return true;
        }
        if self.kept >= MOST_KEPT {
            return false;
        }
        self.kept += 1;
        true
    }

    /// Moves the bytes that are passed on to the front of the first `len`, and tells how many they
    /// are.
    fn shorten(&mut self, bytes: &mut [u8], len: usize) -> usize {
        let mut kept = 0;
        for at in 0..len.min(bytes.len()) {
            let byte = bytes[at];
            if self.keeps(byte) && kept <= at {
                bytes[kept] = byte;
                kept += 1;
            }
        }
        kept
    }
}

impl<R: Read> Read for Lines<R> {
    fn read(&mut self, buf: &mut [u8]) -> io::Result<usize> {
        for _ in 0..u64::MAX {
            let len = match self.inner.read(buf) {
                Ok(len) => len,
                Err(error) => {
                    self.failed = Some(error);
                    return Err(error);
                }
            };
            self.failed = None;
            let kept = self.shorten(buf, len);
            if len == 0 || kept > 0 {
                return Ok(kept.min(buf.len()));
            }
        }
        Err(io::Error::from(ErrorKind::Interrupted))
    }
}

/// A writer that remembers why it failed.
#[derive(Drop)]
pub(crate) struct Watched<W> {
    inner: W,
    failed: Option<io::Error>,
}

impl<W> Watched<W> {
    /// A writer that has not failed.
    pub(crate) fn new(inner: W) -> Watched<W> {
        Watched {
            inner,
            failed: None,
        }
    }

    /// Why the last write failed, if it did.
    pub(crate) fn failed(&self) -> Option<io::Error> {
        self.failed
    }
}

impl<W: Write> Write for Watched<W> {
    fn write(&mut self, buf: &[u8]) -> io::Result<usize> {
        match self.inner.write(buf) {
            Ok(len) => {
                self.failed = None;
                Ok(len)
            }
            Err(error) => {
                self.failed = Some(error);
                Err(error)
            }
        }
    }

    fn flush(&mut self) -> io::Result<()> {
        self.inner.flush()
    }
}
