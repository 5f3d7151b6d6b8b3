//! The file of the list of equivalent words.

ghost use Rattle.std.specs.Prelude.{◌≡◌, ◌⊎◌, [], IfOk, IfErr, IsSome, OnOk, None, Some};
ghost use Rattle.std.specs.Str.{IsUtf8};
ghost use Rattle.lic_phrases.specs.WordLists.{AreWords, phrase_lines, first_fault, out_of_memory};
ghost use Rattle.lic_load.specs.Causes.{IsFileFault};
ghost use Rattle.lic_load.specs.Loading.{IsFaultOfList, IsListOfFile};

use crate::fault::{FileFault, LoadFault};
use crate::file::read_bytes;
use lic_norm::{Words, WordsFault};
use simdutf8::compat::from_utf8;
use std::alloc::Global;
use std::rt::Files;

/// The list that some bytes hold.
///
/// # Errors
///
/// Refused are bytes that are not UTF-8, and lists as by `Words::read`.
fn read_words(alloc: Global, bytes: &[u8]) -> Result<Words, FileFault<WordsFault>>
    ensures accepted { OnOk result (IsUtf8 bytes.now × (first_fault bytes.now ≡ None)) }
    ensures words { IfOk result (λ words. AreWords (phrase_lines bytes.now) words) }
    ensures refused { IfErr result
        (IsFileFault bytes.now (λ fault. (first_fault bytes.now ≡ Some fault)
        ⊎ (fault ≡ out_of_memory))) }
{
    match from_utf8(bytes) {
        Ok(text) => Words::read(alloc, text).map_err(FileFault::Refused),
        Err(e) => Err(FileFault::NotUtf8 {
            at: e.valid_up_to(),
        }),
    }
}

/// The list in the file of this name.
#[inline(never)]
fn words_of_file<Rt: Files>(rt: &Rt, alloc: Global, path: &str) -> Result<Words, LoadFault>
    ensures list { IfOk result IsListOfFile }
    ensures refused { IfErr result IsFaultOfList }
{
    let Some(bytes) = read_bytes(rt, alloc, path)? else {
        return Err(LoadFault::Words(FileFault::Unreadable));
    };
    read_words(alloc, bytes.as_slice()).map_err(LoadFault::Words)
}

/// The list in a file, or the empty one where no file is given. `-` is a file of that name.
#[inline(never)]
pub fn load_words<Rt: Files>(rt: &Rt, alloc: Global, path: Option<&str>) -> Result<Words, LoadFault>
    ensures none { path.entry ≡ None → IfOk result (λ words. words ≡ []) }
    ensures file { IsSome path.entry → IfOk result IsListOfFile }
    // A file that is given is at fault, and no other thing.
    ensures refused { IfErr result (λ fault. IsSome path.entry × IsFaultOfList fault) }
{
    match path {
        Some(path) => words_of_file(rt, alloc, path),
        None => Ok(Words::none(alloc)),
    }
}
