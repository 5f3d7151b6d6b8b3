//! Sets of flags: numbers below a limit, a bit for each.

ghost use Rattle.std.specs.Prelude.{◌≡◌, ◌<◌, ◌↔◌, ℕ, IsTrue, IfOk, length, replicate};

use std::alloc::{AllocError, Global};

/// How many flags there are.
pub const FLAGS: usize = 1 << 18;

// How many bits a word has.
const WORD: usize = 64;

/// A set of flags.
#[derive(Debug, Drop)]
pub struct Flags {
    words: Vec<u64>,
    ghost size: { length words.items ≡ 4096 },
}

impl Flags {
    ghost use Rattle.lic_literals.specs.Flags.{Has};

    /// The empty set.
    pub fn new(alloc: Global) -> Result<Flags, AllocError>
        ensures { IfOk result (λ flags. flags.words.items ≡ replicate 4096 0) }
    {
        Ok(Flags {
            words: vec![in alloc; 0u64; FLAGS / WORD]?,
        })
    }

    /// Whether the flag is in the set.
    #[inline(always)]
    pub fn has(&self, flag: usize) -> bool
        requires { flag < 262144 }
        ensures { IsTrue result ↔ Has self.now flag }
    {
        self.words[flag / WORD] >> (flag % WORD) & 1 == 1
    }

    /// Adds a flag.
    pub fn add(&mut self, flag: usize)
        requires { flag < 262144 }
        ensures added { Has self.new flag }
        ensures kept { (other : ℕ) → Has self.old other → Has self.new other }
    {
        self.words[flag / WORD] |= 1 << (flag % WORD);
    }
}
