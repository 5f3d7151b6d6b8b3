//! A reader and a writer of std's kind of which one call fails and later ones succeed: each call is made once, and its failure is answered.

use lic_stream::{Counted, ReadFault, Sink, Source, WriteFailed, put_all, read_up_to};
use std::alloc::{AllocError, Global};
use std::io;
use std::io::{ErrorKind, Read, Write};
use std::process::Abort;
use std::test::Fail;

const TEXT: &[u8] = b"abc";

/// What a failed call answers. A call that was interrupted is often tried again.
const KINDS: &[ErrorKind] = &[
    ErrorKind::Interrupted,
    ErrorKind::WouldBlock,
    ErrorKind::TimedOut,
    ErrorKind::Other,
];

/// A reader that gives one byte a call, and of whose calls one fails.
#[derive(Drop)]
struct Letters<'c> {
    rest: &'static [u8],
    calls: &'c mut usize,
    fails_at: usize,
    kind: ErrorKind,
}

impl Read for Letters<'_> {
    fn read(&mut self, buf: &mut [u8]) -> io::Result<usize> {
        *self.calls = self.calls.saturating_add(1);
        if *self.calls == self.fails_at {
            return Err(io::Error::from(self.kind));
        }
        let n = self.rest.len().min(buf.len()).min(1);
        buf[..n].copy_from_slice(&self.rest[..n]);
        self.rest = &self.rest[n..];
        Ok(n)
    }
}

/// A writer that takes one byte a call, and of whose calls one fails: by an error, or by taking nothing.
#[derive(Drop)]
struct Page<'c> {
    taken: &'c mut Vec<u8>,
    calls: &'c mut usize,
    fails_at: usize,
    kind: Option<ErrorKind>,
}

impl Write for Page<'_> {
    fn write(&mut self, piece: &[u8]) -> io::Result<usize> {
        *self.calls = self.calls.saturating_add(1);
        if *self.calls == self.fails_at {
            return match self.kind {
                Some(kind) => Err(io::Error::from(kind)),
                None => Ok(0),
            };
        }
        let n = piece.len().min(1);
        self.taken.extend_from_slice(&piece[..n])?;
        Ok(n)
    }

    fn flush(&mut self) -> io::Result<()> {
        Ok(())
    }
}

/// What two reads answer, and how many failures are counted after each.
type Reads = (
    Result<Vec<u8>, ReadFault>,
    u64,
    Result<Vec<u8>, ReadFault>,
    u64,
);

/// Reads to the end, where this call fails, and then reads what is left.
fn read_twice(alloc: Global, kind: ErrorKind, fails_at: usize, calls: &mut usize) -> Reads {
    let mut source = Counted::new(Letters {
        rest: TEXT,
        calls,
        fails_at,
        kind,
    });
    let failed = read_up_to(alloc, &mut source, TEXT.len() + 1);
    let failures = source.failures();
    let rest = read_up_to(alloc, &mut source, TEXT.len() + 1);
    (failed, failures, rest, source.failures())
}

fn try_read(rt: &impl Abort, alloc: Global, kind: ErrorKind, before: usize) -> Result<(), Fail> {
    let mut calls = 0;
    let reads = read_twice(alloc, kind, before.saturating_add(1), &mut calls);
    // a byte for each call before the one that failed
    let rest = TEXT.get(before..).unwrap_or(b"").to_vec(alloc)?;
    let wanted = (Err(ReadFault::Read), 1, Ok(rest), 1);
    assert_eq!(rt; reads, wanted, "{kind:?} after {before}");
    assert_eq!(rt; calls, TEXT.len() + 2, "{kind:?}");
    Ok(())
}

#[test]
fn a_failed_read_is_not_tried_again(rt: HostRuntime) -> Result<(), Fail> {
    for kind in KINDS {
        for before in 0..TEXT.len() + 1 {
            try_read(&rt, rt.alloc(), *kind, before)?;
        }
    }
    Ok(())
}

/// What two writes answer, and how many failures are counted after each.
type Writes = (Result<(), WriteFailed>, u64, Result<(), WriteFailed>, u64);

/// Writes a text, where this call fails, and then writes it again.
fn write_twice(
    taken: &mut Vec<u8>,
    kind: Option<ErrorKind>,
    fails_at: usize,
    calls: &mut usize,
) -> Writes {
    let mut sink = Counted::new(Page {
        taken,
        calls,
        fails_at,
        kind,
    });
    let failed = put_all(&mut sink, TEXT);
    let failures = sink.failures();
    let again = put_all(&mut sink, TEXT);
    (failed, failures, again, sink.failures())
}

/// What is taken if the call after `before` others fails: a byte for each call before it, and then all.
fn wanted_after(alloc: Global, before: usize) -> Result<Vec<u8>, AllocError> {
    let mut wanted = TEXT.get(..before).unwrap_or(b"").to_vec(alloc)?;
    wanted.extend_from_slice(TEXT)?;
    Ok(wanted)
}

fn try_write(
    rt: &impl Abort,
    alloc: Global,
    kind: Option<ErrorKind>,
    before: usize,
) -> Result<(), Fail> {
    let (mut taken, mut calls) = (Vec::new(alloc), 0);
    let writes = write_twice(&mut taken, kind, before.saturating_add(1), &mut calls);
    assert_eq!(rt;
        writes,
        (Err(WriteFailed), 1, Ok(()), 1),
        "{kind:?} after {before}"
    );
    assert_eq!(rt;
        taken,
        wanted_after(alloc, before)?,
        "{kind:?} after {before}"
    );
    assert_eq!(rt; calls, before.saturating_add(TEXT.len() + 1), "{kind:?}");
    Ok(())
}

/// Fails the call after `before` others, by each error and by taking nothing.
fn try_writes(rt: &impl Abort, alloc: Global, before: usize) -> Result<(), Fail> {
    for kind in KINDS {
        try_write(rt, alloc, Some(*kind), before)?;
    }
    try_write(rt, alloc, None, before)
}

#[test]
fn a_failed_write_is_not_tried_again(rt: HostRuntime) -> Result<(), Fail> {
    for before in 0..TEXT.len() {
        try_writes(&rt, rt.alloc(), before)?;
    }
    Ok(())
}
