//! An input that comes byte by byte, and a report that is taken as it comes; either may fail.

use lic_stream::{Sink, Source};
use std::io;

/// A reader that gives one byte a call, and of whose calls one may fail.
#[derive(Drop)]
pub struct Pieces {
    rest: &'static [u8],
    calls: usize,
    fails_at: usize,
    failed: u64,
}

impl Pieces {
    /// A reader whose call of this number fails, counted from 1. With 0, none does.
    pub fn failing(input: &'static [u8], fails_at: usize) -> Pieces {
        Pieces {
            rest: input,
            calls: 0,
            fails_at,
            failed: 0,
        }
    }

    /// A reader that does not fail.
    pub fn of(input: &'static [u8]) -> Pieces {
        Pieces::failing(input, 0)
    }
}

impl Source for Pieces {
    ghost use Rattle.std.specs.Prelude.{None};

    ghost left = { λ _. None };

    ghost failed = { λ s. s.failed };

    fn pull(&mut self, buf: &mut [u8]) -> io::Result<usize> {
        self.calls = self.calls.saturating_add(1);
        if self.calls == self.fails_at {
            self.failed = self.failed.saturating_add(1);
            return Err(io::Error::from(io::ErrorKind::Interrupted));
        }
        let n = self.rest.len().min(buf.len()).min(1);
        buf[..n].copy_from_slice(&self.rest[..n]);
        self.rest = &self.rest[n..];
        Ok(n)
    }

    fn failures(&self) -> u64 {
        self.failed
    }
}

/// A writer that takes one byte a call, and fails at a byte that is not the report's next one. So what it took is a beginning of
/// the report.
#[derive(Drop)]
pub struct Awaited {
    rest: &'static [u8],
    failed: u64,
}

impl Awaited {
    pub fn of(report: &'static [u8]) -> Awaited {
        Awaited {
            rest: report,
            failed: 0,
        }
    }

    /// Whether the whole report has come.
    pub fn is_whole(&self) -> bool {
        self.rest.is_empty()
    }
}

impl Sink for Awaited {
    ghost use Rattle.std.specs.Prelude.{None};

    ghost taken = { λ _. None };

    ghost failed = { λ s. s.failed };

    fn put(&mut self, piece: &[u8]) -> io::Result<usize> {
        if piece.is_empty() {
            return Ok(0);
        }
        let rest = self.rest;
        if let Some((next, past)) = rest.split_first() {
            if *next == piece[0] {
                self.rest = past;
                return Ok(1);
            }
        }
        self.failed = self.failed.saturating_add(1);
        Ok(0)
    }

    fn failures(&self) -> u64 {
        self.failed
    }
}
