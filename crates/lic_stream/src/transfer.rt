//! Whole inputs and whole pieces, in as many calls as they take; lines gathered before they are written.

ghost use Rattle.std.specs.Prelude.{◌≡◌, ◌++◌, ◌<◌, ◌≤◌, ℕ, [], List, length, IfOk, OnOk, OnErr, IsErrOf};
ghost use Rattle.std.specs.Io.KnownBytes.{Consumes, Appends, IsAtEnd};
ghost use Rattle.lic_stream.specs.Stream.{one_more, BeginsWith, ReadsUpTo};
ghost use Rattle.lic_stream.specs.declared.transfer.ReadFault.TheVariants.{Memory};

use crate::stream::{Sink, Source};
use std::alloc::{AllocError, Global};
use thiserror::Error;

/// How many bytes are asked for in one call.
const CHUNK: usize = 16_384;

/// How many are asked for after a call that read fewer than were asked for: mostly the end is near.
const FEW: usize = 4_096;

/// A read that failed, or memory that ran out.
#[derive(Clone, Copy, Debug, PartialEq, Eq, Error)]
pub enum ReadFault {
    #[error("cannot be read")]
    Read,
    #[error("out of memory")]
    Memory,
}

impl From<AllocError> for ReadFault {
    ghost from_gives = { λ _ fault. fault ≡ Memory };

    fn from(_error: AllocError) -> ReadFault {
        ReadFault::Memory
    }
}

/// How many bytes are asked for after `len` bytes. All that are asked for are filled with zeros first.
fn asked_after(len: usize) -> usize
    ensures some { 0 < result }
    ensures most { result ≤ CHUNK }
{
    if len % CHUNK == 0 { CHUNK } else { FEW }
}

/// Adds what one call reads, at most `most` bytes, and gives how many bytes these are: 0 only at the end, or where none are asked for.
///
/// A failed call is not tried again.
pub fn pull_into<R: Source>(
    input: &mut R,
    bytes: &mut Vec<u8>,
    most: usize,
) -> Result<usize, ReadFault>
    ensures bytes { IfOk result (λ n. (more : List ℕ) × Consumes (R.left input.old) (R.left input.new) more
        × (n ≡ length more) × (bytes.new.items ≡ bytes.old.items ++ more)) }
    ensures bound { IfOk result (λ n. n ≤ most) }
    ensures end { IfOk result (λ n. n ≡ 0 → 0 < most → IsAtEnd (R.left input.new)) }
    ensures stays { OnErr result (bytes.new.items ≡ bytes.old.items) }
    ensures none { OnErr result (Consumes (R.left input.old) (R.left input.new) []) }
    ensures sound { OnOk result (R.failed input.new ≡ R.failed input.old) }
    ensures read { IsErrOf result ReadFault.Read
        → R.failed input.new ≡ one_more (R.failed input.old) }
    ensures memory { IsErrOf result ReadFault.Memory → R.failed input.new ≡ R.failed input.old }
{
    let len = bytes.len();
    bytes.resize(len + most.min(asked_after(len)), 0)?;
    match input.pull(&mut bytes[len..]) {
        Ok(n) => {
            bytes.truncate(len + n);
            Ok(n)
        }
        Err(_) => {
            bytes.truncate(len);
            Err(ReadFault::Read)
        }
    }
}

/// Reads to the end, but no more than `limit` bytes.
///
/// A failed call is not tried again.
pub fn read_up_to<R: Source>(
    alloc: Global,
    input: &mut R,
    limit: usize,
) -> Result<Vec<u8>, ReadFault>
    ensures bytes { IfOk result (λ bytes.
        Consumes (R.left input.old) (R.left input.new) bytes.items) }
    ensures bound { IfOk result (λ bytes. length bytes.items ≤ limit) }
    ensures end { IfOk result (λ bytes. length bytes.items < limit → IsAtEnd (R.left input.new)) }
    ensures part { OnErr result (ReadsUpTo (R.left input.old) (R.left input.new) limit) }
    ensures sound { OnOk result (R.failed input.new ≡ R.failed input.old) }
    ensures read { IsErrOf result ReadFault.Read
        → R.failed input.new ≡ one_more (R.failed input.old) }
    ensures memory { IsErrOf result ReadFault.Memory → R.failed input.new ≡ R.failed input.old }
{
    let mut bytes = Vec::new(alloc);
    while bytes.len() < limit {
        let left = limit - bytes.len();
        if pull_into(input, &mut bytes, left)? == 0 {
            return Ok(bytes);
        }
    }
    Ok(bytes)
}

/// A write that failed.
#[derive(Clone, Copy, Debug, PartialEq, Eq, Error)]
#[error("cannot be written")]
pub struct WriteFailed;

/// Writes all of `piece`.
///
/// A failed call is not tried again.
pub fn put_all<W: Sink>(out: &mut W, piece: &[u8]) -> Result<(), WriteFailed>
    ensures ok { OnOk result (Appends (W.taken out.old) (W.taken out.new) piece.now) }
    ensures part { OnErr result (BeginsWith (W.taken out.old) (W.taken out.new) piece.now) }
    ensures sound { OnOk result (W.failed out.new ≡ W.failed out.old) }
    ensures failed { OnErr result (W.failed out.new ≡ one_more (W.failed out.old)) }
{
    let mut at = 0;
    while at < piece.len() {
        match out.put(&piece[at..]) {
            Err(_) => return Err(WriteFailed),
            Ok(0) => return Err(WriteFailed),
            Ok(n) => at += n,
        }
    }
    Ok(())
}

/// How many bytes of lines are gathered before they are written.
const GATHERED: usize = 65_536;

/// Writes the gathered lines and empties the list, where there are enough of them.
pub fn put_gathered<W: Sink>(out: &mut W, lines: &mut Vec<u8>) -> Result<(), WriteFailed>
    ensures few { OnOk result (length lines.new.items < 65_536) }
    ensures ok { OnOk result
        ((put : List ℕ) × Appends (W.taken out.old) (W.taken out.new) put
        × (lines.old.items ≡ put ++ lines.new.items)) }
    ensures part { OnErr result (BeginsWith (W.taken out.old) (W.taken out.new) lines.old.items) }
    ensures sound { OnOk result (W.failed out.new ≡ W.failed out.old) }
    ensures failed { OnErr result (W.failed out.new ≡ one_more (W.failed out.old)) }
{
    if lines.len() < GATHERED {
        return Ok(());
    }
    put_all(out, lines.as_slice())?;
    lines.clear();
    Ok(())
}
