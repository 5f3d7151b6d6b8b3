//! Long texts by their characters.
ghost use Rattle.std.specs.Prelude.{◌≡◌, ◌++◌, ◌≤◌, true, List, length, drop, OnOk};
ghost use Rattle.lic_kind.specs.LineRules.{rules_of};
ghost use Rattle.lic_lines.specs.Tokens.{Token, text_tokens_after};
ghost use Rattle.lic_rewriting.specs.Taking.{HasTaken, HasTakenSome, phrases_of};

use crate::rewriting::{PartBuffers, Rewriting};
use lic_lines::{Rules, TextStart, start_of_text};
use lic_trim::SourceChar;
use std::alloc::{AllocError, Global};

/// The fewest characters that are let go of at once.
const PART: usize = 65_536;

/// Lets go of the characters before this offset once they are a fourth of those that are there. Gives the offset where the text goes on.
#[inline(always)]
fn let_go(characters: &mut Vec<SourceChar>, offset: usize) -> usize
    requires { offset ≤ length characters.old.items }
    ensures within { result ≤ length characters.new.items }
    ensures left { drop result characters.new.items ≡ drop offset characters.old.items }
{
    if offset < PART || offset < characters.len() / 4 {
        return offset;
    }
    characters.copy_within(offset.., 0);
    characters.truncate(characters.len() - offset);
    characters.shrink_to_fit();
    0
}

impl Rewriting<'_> {
    /// Takes a long text, from this offset on, as `take_characters` does, and lets go of the characters that are taken: so their memory is
    /// given back while the memory for the list of tokens grows.
    pub fn take_long(
        &mut self,
        alloc: Global,
        rules: &Rules,
        characters: &mut Vec<SourceChar>,
        from: usize,
        letters: &mut String,
        buffers: &mut PartBuffers,
    ) -> Result<(), AllocError>
        requires before { HasTakenSome self.old }
        requires within { from ≤ length characters.old.items }
        ensures taken { OnOk result ((taken : List Token) → HasTaken self.old taken
            → HasTaken self.new (taken
            ++ text_tokens_after (rules_of rules.now) true (drop from characters.old.items))) }
        ensures phrases { phrases_of self.new ≡ phrases_of self.old }
    {
        self.settled.clear();
        let mut after_blank = true;
        let mut offset = from;
        while offset < characters.len() {
            let rest = &characters[offset..];
            match start_of_text(alloc, rest, letters)? {
                TextStart::Blank => {
                    after_blank = true;
                    offset += 1;
                }
                TextStart::Token(length) => {
                    let start = rest[0].start;
                    let end = rest[length - 1].end;
                    // Before its text is listed: a token can be as long as the text.
                    offset = let_go(characters, offset + length);
                    self.take_text(alloc, letters.as_str(), start, end, after_blank)?;
                    after_blank = false;
                }
                TextStart::Other => {
                    let part = self.take_front(alloc, rules, after_blank, rest, buffers)?;
                    after_blank = part.blank_after;
                    offset = let_go(characters, offset + part.length);
                }
            }
        }
        Ok(())
    }
}
