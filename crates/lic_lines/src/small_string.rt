//! Strings that ask for memory only where they are long.
ghost use Rattle.std.specs.Prelude.{◌≡◌, ◌≤◌, IfOk, length};
ghost use Rattle.std.specs.Str.{IsUtf8};
ghost use Rattle.lic_lines.specs.SmallStrings.{bytes_in};

use arrayvec::ArrayString;
use std::alloc::{AllocError, Global};

/// How many bytes of a string lie in the value itself at most.
const MOST_HERE: usize = 24;

/// Where the bytes of a string are kept.
#[derive(Drop)]
enum Storage {
    /// In the value itself.
    Here(ArrayString<MOST_HERE>),
    Apart(String),
}

/// A string of which up to 24 bytes lie in the value itself.
#[derive(Drop)]
pub struct SmallString {
    storage: Storage,
    ghost utf8: { ∥ IsUtf8 (bytes_in storage) ∥₁ },
}

impl SmallString {
    ghost use Rattle.lic_lines.specs.Tokens.{small_bytes};

    /// A string of at most 24 bytes of UTF-8. Takes no memory.
    pub fn short(text: &str) -> SmallString
        requires { length text.now ≤ 24 }
        ensures { small_bytes result ≡ text.now }
    {
        let mut here = ArrayString::new();
        here.push_str(text);
        SmallString {
            storage: Storage::Here(here),
        }
    }

    /// A string of any length. Takes memory where it has more than 24 bytes; the error is lack of it.
    pub fn from_str(alloc: Global, text: &str) -> Result<SmallString, AllocError>
        ensures { IfOk result (λ string. small_bytes string ≡ text.now) }
    {
        if text.len() <= MOST_HERE {
            return Ok(SmallString::short(text));
        }
        Ok(SmallString {
            storage: Storage::Apart(String::from_str(alloc, text)?),
        })
    }

    /// The string.
    pub fn as_str(&self) -> &str
        ensures { result.now ≡ small_bytes self.now }
    {
        match &self.storage {
            Storage::Here(text) => text.as_str(),
            Storage::Apart(text) => text.as_str(),
        }
    }
}
