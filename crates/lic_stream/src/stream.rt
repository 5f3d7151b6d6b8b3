//! Readers and writers that report their bytes and count their failed calls.

ghost use Rattle.std.specs.Prelude.{◌≡◌, ℕ, List, Option};
ghost use Rattle.std.specs.Io.{ReadsAtMost, WritesAtMost};
ghost use Rattle.std.specs.Io.KnownBytes.{ReadConsumes, WriteAppends};
ghost use Rattle.lic_stream.specs.Stream.{failures_after_pull, failures_after_put};
ghost use Rattle.lic_stream.specs.Counts.{stream_of, failures_of};

use std::io;
use std::io::{Read, Write};

/// Where bytes come from.
pub trait Source {
    /// The bytes that are left, where they are known.
    ghost left: { Self → Option (List ℕ) };

    /// How many calls have failed.
    ghost failed: { Self → ℕ };

    /// Moves bytes to the front of `buf`, and gives how many. For a buffer that is not empty this is 0 only
    /// at the end.
    fn pull(&mut self, buf: &mut [u8]) -> io::Result<usize>
        ensures bound { ReadsAtMost result buf.new }
        ensures bytes { ReadConsumes (left self.old) (left self.new) result buf.new }
        ensures count { failed self.new ≡ failures_after_pull result (failed self.old) };

    /// How many calls have failed. At the greatest `u64` it stays.
    fn failures(&self) -> u64
        ensures { result ≡ failed self.now };
}

/// Where bytes go.
pub trait Sink {
    /// The bytes that were taken, where they are known.
    ghost taken: { Self → Option (List ℕ) };

    /// How many calls have failed.
    ghost failed: { Self → ℕ };

    /// Takes bytes from the start of `piece`, and gives how many. A call that takes none of a piece that is
    /// not empty has failed.
    fn put(&mut self, piece: &[u8]) -> io::Result<usize>
        ensures bound { WritesAtMost result piece.now }
        ensures bytes { WriteAppends (taken self.old) (taken self.new) result piece.now }
        ensures count { failed self.new ≡ failures_after_put result piece.now (failed self.old) };

    /// How many calls have failed. At the greatest `u64` it stays.
    fn failures(&self) -> u64
        ensures { result ≡ failed self.now };
}

/// One of std's readers or writers, with the count of its failed calls.
#[derive(Drop)]
pub struct Counted<T> {
    inner: T,
    count: u64,
}

impl<T> Counted<T> {
    /// The reader or writer, with no failed call.
    pub fn new(inner: T) -> Counted<T>
        ensures stream { stream_of result ≡ inner }
        ensures failures { failures_of result ≡ 0 }
    {
        Counted { inner, count: 0 }
    }
}

impl<T: Read> Source for Counted<T> {
    ghost left = { λ s. T.remaining (stream_of s) };

    ghost failed = { failures_of };

    fn pull(&mut self, buf: &mut [u8]) -> io::Result<usize> {
        let result = self.inner.read(buf);
        if result.is_err() {
            self.count = self.count.saturating_add(1);
        }
        result
    }

    fn failures(&self) -> u64 {
        self.count
    }
}

impl<T: Write> Sink for Counted<T> {
    ghost taken = { λ s. T.contents (stream_of s) };

    ghost failed = { failures_of };

    fn put(&mut self, piece: &[u8]) -> io::Result<usize> {
        let result = self.inner.write(piece);
        let has_failed = match &result {
            Ok(n) => *n == 0 && !piece.is_empty(),
            Err(_) => true,
        };
        if has_failed {
            self.count = self.count.saturating_add(1);
        }
        result
    }

    fn failures(&self) -> u64 {
        self.count
    }
}
