//! A file that an option names.

ghost use Rattle.std.specs.Prelude.{◌≤◌, length, IfOk, IfSome};

use crate::fault::wants_memory;
use lic_stream::{Counted, ReadFault, read_up_to};
use std::alloc::{AllocError, Global};
use std::fs::File;
use std::rt::Files;

/// The most bytes of such a file.
const MAX_FILE_BYTES: usize = 67_108_864;

/// The bytes of a file. `None` where it cannot be opened or read, or has more than 67,108,864.
///
/// # Errors
///
/// Fails if memory runs out.
pub fn read_bytes<Rt: Files>(
    rt: &Rt,
    alloc: Global,
    path: &str,
) -> Result<Option<Vec<u8>>, AllocError>
    ensures { IfOk result (λ bytes. IfSome bytes (λ bytes. length bytes.items ≤ 67108864)) }
{
    let file = match File::open(rt, path) {
        Ok(file) => file,
        Err(e) if wants_memory(&e) => return Err(AllocError),
        Err(_) => return Ok(None),
    };
    match read_up_to(alloc, &mut Counted::new(file), MAX_FILE_BYTES + 1) {
        Ok(bytes) if bytes.len() > MAX_FILE_BYTES => Ok(None),
        Ok(bytes) => Ok(Some(bytes)),
        Err(ReadFault::Read) => Ok(None),
        Err(ReadFault::Memory) => Err(AllocError),
    }
}
