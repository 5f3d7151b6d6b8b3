//! The file of the line rules.

ghost use Rattle.std.specs.Prelude.{◌≡◌, ◌⊎◌, IfOk, IfErr, OnOk, length, IsSome, None};
ghost use Rattle.std.specs.Str.{IsUtf8};
ghost use Rattle.lic_kind.specs.LineRules.{profile, rules_of};
ghost use Rattle.lic_kind.specs.RuleFiles.{lines_of, rules_in, AreSound, IsFirstFault, out_of_memory};
ghost use Rattle.lic_load.specs.Causes.{IsFileFault};
ghost use Rattle.lic_load.specs.Loading.{AreRulesOfFile, IsFaultOfRules};

use crate::fault::{FileFault, LoadFault};
use crate::file::read_bytes;
use lic_kind::{Rules, RulesFault};
use simdutf8::compat::from_utf8;
use std::alloc::Global;
use std::rt::Files;

/// The rules that some bytes hold.
///
/// # Errors
///
/// Refused are bytes that are not UTF-8, and rules as by `Rules::read`.
fn read_rules(alloc: Global, bytes: &[u8]) -> Result<Rules, FileFault<RulesFault>>
    ensures accepted { OnOk result
        (IsUtf8 bytes.now × AreSound (lines_of bytes.now) (length (lines_of bytes.now))) }
    ensures rules { IfOk result (λ rules. rules_of rules ≡ rules_in (lines_of bytes.now)) }
    ensures refused { IfErr result
        (IsFileFault bytes.now (λ fault. IsFirstFault (lines_of bytes.now) fault
        ⊎ (fault ≡ out_of_memory))) }
{
    match from_utf8(bytes) {
        Ok(text) => Rules::read(alloc, text).map_err(FileFault::Refused),
        Err(e) => Err(FileFault::NotUtf8 {
            at: e.valid_up_to(),
        }),
    }
}

/// The rules in the file of this name.
///
/// It is a function of its own on the stack, as the profile needs a part of its memory alone.
#[inline(never)]
fn rules_of_file<Rt: Files>(rt: &Rt, alloc: Global, path: &str) -> Result<Rules, LoadFault>
    ensures rules { IfOk result (λ rules. AreRulesOfFile (rules_of rules)) }
    ensures refused { IfErr result IsFaultOfRules }
{
    let Some(bytes) = read_bytes(rt, alloc, path)? else {
        return Err(LoadFault::Rules(FileFault::Unreadable));
    };
    read_rules(alloc, bytes.as_slice()).map_err(LoadFault::Rules)
}

/// The rules in a file, or those of this project's profile where no file is given. `-` is a file of that name.
#[inline(never)]
pub fn load_rules<Rt: Files>(rt: &Rt, alloc: Global, path: Option<&str>) -> Result<Rules, LoadFault>
    ensures profile { path.entry ≡ None → IfOk result (λ rules. rules_of rules ≡ profile) }
    ensures file { IsSome path.entry → IfOk result (λ rules. AreRulesOfFile (rules_of rules)) }
    // A file that is given is at fault, and no other thing.
    ensures refused { IfErr result (λ fault. IsSome path.entry × IsFaultOfRules fault) }
{
    match path {
        Some(path) => rules_of_file(rt, alloc, path),
        None => Ok(Rules::profile(alloc)),
    }
}
