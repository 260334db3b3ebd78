//! Readers and writers whose failures are counted.

ghost use Rattle.std.specs.Prelude.{◌≡◌};
ghost use Rattle.std.specs.Io.{ReadsAtMost, WritesAtMost};
ghost use Rattle.std.specs.Io.KnownBytes.{Keeps, ReadConsumes, WriteAppends};
ghost use Rattle.relay_http.specs.Counting.{after_read, after_write, one_failure};

use std::io::{self, Read, Write};

/// A reader or writer whose failures are counted: each `Err`, and each write that takes nothing, up
/// to the greatest number.
#[derive(Debug, Drop)]
pub struct Counted<T> {
    inner: T,
    failures: u64,
}

impl<T> Counted<T> {
    /// Holds a reader or a writer that has not failed yet.
    pub fn new(inner: T) -> Counted<T>
        ensures inner { result.inner ≡ inner }
        ensures none { result.failures ≡ 0 }
    {
        Counted { inner, failures: 0 }
    }

    /// The reader or writer.
    pub fn into_inner(self) -> T
        ensures { result ≡ self.inner }
    {
        self.inner
    }

    /// How many reads and writes failed; the greatest number means that many or more.
    pub fn failures(&self) -> u64
        ensures { result ≡ self.now.failures }
    {
        self.failures
    }

    fn count_failure(&mut self)
        ensures inner { self.new.inner ≡ self.old.inner }
        ensures one { self.new.failures ≡ one_failure self.old.failures }
    {
        self.failures = self.failures.saturating_add(1);
    }
}

impl<R: Read> Read for Counted<R> {
    ghost remaining = { λ c. R.remaining c.inner };

    /// Reads through the reader.
    fn read(&mut self, buf: &mut [u8]) -> io::Result<usize>
        ensures bound { ReadsAtMost result buf.new }
        ensures bytes { ReadConsumes (R.remaining self.old.inner)
            (R.remaining self.new.inner) result buf.new }
        ensures counted { self.new.failures ≡ after_read result self.old.failures }
    {
        match self.inner.read(buf) {
            Ok(count) => Ok(count),
            Err(error) => {
                self.count_failure();
                Err(error)
            }
        }
    }
}

impl<W: Write> Write for Counted<W> {
    ghost contents = { λ c. W.contents c.inner };

    /// Writes through the writer.
    fn write(&mut self, buf: &[u8]) -> io::Result<usize>
        ensures bound { WritesAtMost result buf.now }
        ensures bytes { WriteAppends (W.contents self.old.inner)
            (W.contents self.new.inner) result buf.now }
        ensures counted { self.new.failures ≡ after_write result self.old.failures }
    {
        let result = self.inner.write(buf);
        if matches!(result, Ok(0) | Err(_)) {
            self.count_failure();
        }
        result
    }

    /// Flushes the writer.
    fn flush(&mut self) -> io::Result<()>
        ensures bytes { Keeps (W.contents self.old.inner) (W.contents self.new.inner) }
        ensures counted { self.new.failures ≡ after_read result self.old.failures }
    {
        let result = self.inner.flush();
        if result.is_err() {
            self.count_failure();
        }
        result
    }
}
