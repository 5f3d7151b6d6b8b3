//! The letters of a token from the last to the first, each with the gap before it as it is read.

ghost use Rattle.std.specs.Prelude.{◌≡◌, [], IsTrue, reverse};
ghost use Rattle.std.specs.Str.{chars, is_utf8};
ghost use Rattle.lic_words.specs.Spelling.{gapped_from, last_letter};

use crate::letters::Letter;
use lic_kind::is_word;

/// An iterator over the letters of a token that are no blanks, from the last to the first. Blanks of the token are gaps.
#[derive(Debug, Drop)]
pub struct ReversedLetters<'a> {
    rest: &'a str,
    last: char,
    is_apart: bool,
    ghost text: { IsTrue (is_utf8 rest.now) },
}

impl<'a> ReversedLetters<'a> {
    ghost use Rattle.lic_words.specs.Reading.{reversed_letters_left, reversed_last_in};

    /// The letters of a token, read from its end after the letter `last`. `is_apart` says that there is a gap already.
    pub fn new(token: &'a str, last: char, is_apart: bool) -> ReversedLetters<'a>
        ensures letters { reversed_letters_left result
            ≡ gapped_from last is_apart (reverse (chars token.now)) }
        ensures last { reversed_last_in result ≡ last_letter last (reverse (chars token.now)) }
    {
        ReversedLetters {
            rest: token,
            last,
            is_apart,
        }
    }

    /// Once all letters are given: the first letter of the token, or else the letter after which it was read.
    pub fn last_letter(&self) -> char
        ensures { reversed_letters_left self.now ≡ [] → result ≡ reversed_last_in self.now }
    {
        self.last
    }
}

impl Iterator for ReversedLetters<'_> {
    ghost use Rattle.std.specs.Iterator.{item_count};
    ghost use Rattle.lic_words.specs.Reading.{reversed_letters_left, GivesTurnedLetter};

    type Item = Letter;

    ghost next_gives = { GivesTurnedLetter };

    ghost remaining = { item_count reversed_letters_left };

    fn next(&mut self) -> Option<Letter> {
        loop {
            let mut chars = self.rest.chars();
            let letter = chars.next_back()?;
            self.rest = chars.as_str();
            if letter != ' ' {
                let are_words = is_word(self.last) & is_word(letter);
                let is_apart = self.is_apart;
                self.last = letter;
                self.is_apart = false;
                return Some(Letter {
                    letter,
                    is_apart,
                    are_words,
                });
            }
            self.is_apart = true;
        }
    }
}
