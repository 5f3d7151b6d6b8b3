//! Memory that is used again from input to input.

ghost use Rattle.std.specs.Prelude.{◌≡◌, [], None};
ghost use Rattle.lic_kind.specs.LineRules.{rules_of};

use lic_fields::LineBuffer;
use lic_kind::Rules;
use lic_norm::{Feeder, Text, Words};
use std::alloc::Global;

/// Memory for the work on inputs, one after another: that of the last one's text is used again. What it holds has no effect.
#[derive(Drop)]
pub struct Memory {
    alloc: Global,
    text: Option<Text>,
    /// Lines of tokens that are gathered.
    pub(crate) lines: LineBuffer,
}

impl Memory {
    /// Nothing is kept yet.
    pub fn new(alloc: Global) -> Memory {
        Memory {
            alloc,
            text: None,
            lines: LineBuffer::new(alloc),
        }
    }

    /// Where other memory comes from.
    pub(crate) fn alloc(&self) -> Global {
        self.alloc
    }

    /// A feeder to which nothing is fed yet.
    pub(crate) fn feeder<'w>(&mut self, words: &'w Words, rules: &'w Rules) -> Feeder<'w>
        ensures { result ≡ record {
          bytes = [];
          words = words.now;
          rules = rules_of rules.now;
          tokens = [];
          refused = None;
        } }
    {
        match self.text.take() {
            Some(text) => Feeder::reuse(self.alloc, text, words, rules),
            None => Feeder::new(self.alloc, words, rules),
        }
    }

    /// Keeps the memory of a text that is no longer needed.
    pub(crate) fn keep(&mut self, text: Text) {
        self.text = Some(text);
    }
}
