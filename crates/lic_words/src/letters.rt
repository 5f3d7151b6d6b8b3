//! The letters of a token one by one, each with the gap before it.

ghost use Rattle.std.specs.Prelude.{◌≡◌, ◌≢◌, [], IsTrue};
ghost use Rattle.std.specs.Str.{chars, is_utf8};
ghost use Rattle.lic_words.specs.Words.{blank};
ghost use Rattle.lic_words.specs.Spelling.{gapped_from, last_letter, apart_after};

use lic_kind::is_word;

/// A letter that is no blank, and how it follows the letter before it.
#[derive(Clone, Copy, Debug)]
pub struct Letter {
    pub letter: char,
    /// There is a gap before it.
    pub is_apart: bool,
    /// It and the letter before it are letters of words, so that a gap before it is written as a blank at least.
    pub are_words: bool,
    ghost is_letter: { letter ≢ blank },
}

/// An iterator over the letters of a token that are no blanks. Blanks of the token are gaps.
#[derive(Debug, Drop)]
pub struct Letters<'a> {
    rest: &'a str,
    last: char,
    is_apart: bool,
    ghost text: { IsTrue (is_utf8 rest.now) },
}

impl<'a> Letters<'a> {
    ghost use Rattle.lic_words.specs.Reading.{letters_left, last_in, is_apart_in};

    /// The letters of a token after the letter `last`. `is_apart` says that there is a gap already.
    pub fn new(token: &'a str, last: char, is_apart: bool) -> Letters<'a>
        ensures letters { letters_left result ≡ gapped_from last is_apart (chars token.now) }
        ensures last { last_in result ≡ last_letter last (chars token.now) }
        ensures apart { is_apart_in result ≡ apart_after is_apart (chars token.now) }
    {
        Letters {
            rest: token,
            last,
            is_apart,
        }
    }

    /// Once all letters are given: the last letter of the token, or else the letter before it.
    pub fn last_letter(&self) -> char
        ensures { letters_left self.now ≡ [] → result ≡ last_in self.now }
    {
        self.last
    }

    /// Once all letters are given: whether a gap follows the last one, or the letter before the token if there was none.
    pub fn is_apart(&self) -> bool
        ensures { letters_left self.now ≡ [] → result ≡ is_apart_in self.now }
    {
        self.is_apart || !self.rest.is_empty()
    }
}

impl Iterator for Letters<'_> {
    ghost use Rattle.std.specs.Iterator.{item_count};
    ghost use Rattle.lic_words.specs.Reading.{letters_left, GivesLetter};

    type Item = Letter;

    ghost next_gives = { GivesLetter };

    ghost remaining = { item_count letters_left };

    fn next(&mut self) -> Option<Letter> {
        loop {
            let mut chars = self.rest.chars();
            let letter = chars.next()?;
            self.rest = chars.as_str();
            if letter != ' ' {
                let are_words = is_word(self.last) & is_word(letter);
                let is_apart = self.is_apart;
                self.last = letter;
                self.is_apart = false;
                return Some(Letter {
                    letter,
                    is_apart,
                    are_words,
                });
            }
            self.is_apart = true;
        }
    }
}
