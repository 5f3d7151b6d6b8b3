//! Tokens in canonical spelling, and where each of them is in it.

ghost use Rattle.std.specs.Prelude.{◌≡◌, ◌+◌, ◌<◌, ◌≤◌, ◌↔◌, ℕ, IsTrue, length, slice_range, MatchOption};
ghost use Rattle.std.specs.Str.{IsAscii, IsCharBoundary};
ghost use Rattle.lic_tokens.specs.Places.{IsTokenEnd, place_end, place_start};
ghost use Rattle.lic_places.specs.Places.{AreTexts, IsAfterBlank, OverBlank, is_blank_at, spelling_of};
ghost use Rattle.lic_view.specs.LettersBefore.{IsLetterBefore};
ghost use Rattle.lic_view.specs.PlaceSets.{IsLetterPlace};
ghost use Rattle.lic_view.specs.Views.{AreSpelledFrom, IsFirstFrom, IsWordByte};

use crate::last_letter::last_letter;
use lic_kind::is_word;
use lic_tokens::{TokenList, utf8_text};
use std::marker::Model;

/// Tokens of a list that follow one another, in canonical spelling. A place is a number of bytes of it.
#[derive(Debug, Drop)]
pub struct View<'t> {
    tokens: &'t TokenList,
    // the number of the first token, and how many there are
    first: usize,
    count: usize,
    // where the first token begins in the canonical spelling of the whole text
    start: usize,
    spelled: &'t str,
    is_ascii: bool,
}

impl<'t> Model for View<'t> {
    ghost use Rattle.std.specs.Prelude.{◌+◌, ◌≤◌, IsTrue, List, length, slice_range};
    ghost use Rattle.std.specs.Str.{IsAscii};
    ghost use Rattle.lic_tokens.specs.Tokens.{TokenValue};
    ghost use Rattle.lic_places.specs.Places.{AreTexts};
    ghost use Rattle.lic_view.specs.Views.{AreSpelledFrom};

    ghost Value = { List TokenValue };

    ghost view = { λ v. slice_range v.tokens.now v.first (v.first + v.count) };

    ghost invariant = { λ v. (v.first + v.count ≤ length v.tokens.now)
        × AreTexts (slice_range v.tokens.now v.first (v.first + v.count))
        × AreSpelledFrom v.tokens.now v.first v.count v.start v.spelled.now
        × (IsTrue v.is_ascii → IsAscii v.spelled.now) };
}

impl<'t> View<'t> {
    /// All tokens of a list.
    pub fn new(tokens: &'t TokenList) -> View<'t>
        ensures { result ≡ tokens.now }
    {
        View::of(tokens, 0, tokens.len())
    }

    /// `count` tokens of a list from the token number `first` on.
    pub fn of(tokens: &'t TokenList, first: usize, count: usize) -> View<'t>
        requires { first + count ≤ length tokens.now }
        ensures { result ≡ slice_range tokens.now first (first + count) }
    {
        tokens.texts_are_utf8();
        tokens.texts_are_token_texts();
        let (start, spelled) = spelled_from(tokens, first, count);
        View {
            tokens,
            first,
            count,
            start,
            spelled,
            is_ascii: spelled.is_ascii(),
        }
    }
}

impl View<'_> {
    /// How many tokens there are.
    pub fn len(&self) -> usize
        ensures { result ≡ length self.now }
    {
        self.count
    }

    /// The bytes of the canonical spelling.
    pub fn bytes(&self) -> &[u8]
        ensures { result.now ≡ spelling_of self.now }
    {
        self.spelled.as_bytes()
    }

    /// Whether all bytes of the canonical spelling are known to be ASCII.
    pub fn is_ascii(&self) -> bool
        ensures { IsTrue result → IsAscii (spelling_of self.now) }
    {
        self.is_ascii
    }

    /// Where the letter before a place begins, and this letter.
    pub fn letter_before(&self, place: usize) -> Option<(usize, char)>
        ensures { MatchOption result ((p c : ℕ) → ¬ (IsLetterBefore (spelling_of self.now) place p c))
            (λ found. IsLetterBefore (spelling_of self.now) place found.0 found.1) }
    {
        last_letter(self.spelled, place)
    }

    /// The place at which the token number `i` ends.
    pub fn end(&self, i: usize) -> usize
        requires { i < length self.now }
        ensures { result ≡ place_end self.now i }
    {
        let _length = self.tokens.len();
        self.tokens.place(self.first + i).end - self.start
    }

    /// The place at which the token number `i` begins.
    pub fn start(&self, i: usize) -> usize
        requires { i < length self.now }
        ensures { result ≡ place_start self.now i }
    {
        let _length = self.tokens.len();
        self.tokens.place(self.first + i).start - self.start
    }

    /// Whether no letter is cut at a place.
    pub fn is_boundary(&self, place: usize) -> bool
        ensures { IsTrue result ↔ IsCharBoundary (spelling_of self.now) place }
    {
        self.spelled.is_char_boundary(place)
    }

    /// Whether a blank is at a place.
    pub fn is_blank(&self, place: usize) -> bool
        ensures { result ≡ is_blank_at (spelling_of self.now) place }
    {
        place < self.spelled.len() && self.spelled.as_bytes()[place] == b' '
    }

    /// Whether a blank is right before a place.
    pub fn is_after_blank(&self, place: usize) -> bool
        ensures { IsTrue result ↔ IsAfterBlank (spelling_of self.now) place }
    {
        place > 0 && self.is_blank(place - 1)
    }

    /// The first token that ends at a place or after it.
    pub fn first_ending_from(&self, place: usize) -> usize
        ensures { IsFirstFrom (place_end self.now) (length self.now) place result }
    {
        tokens_have_texts(self);
        let mut low = 0;
        let mut high = self.len();
        while low < high {
            let middle = low + (high - low) / 2;
            if self.end(middle) < place {
                low = middle + 1;
            } else {
                high = middle;
            }
        }
        low
    }

    /// The first token that begins at a place or after it.
    pub fn first_beginning_from(&self, place: usize) -> usize
        ensures { IsFirstFrom (place_start self.now) (length self.now) place result }
    {
        tokens_have_texts(self);
        let token = self.first_ending_from(place);
        if token < self.len() && self.start(token) < place {
            token + 1
        } else {
            token
        }
    }

    /// Whether a token ends at a place.
    pub(crate) fn is_token_end(&self, place: usize) -> bool
        ensures { IsTrue result ↔ IsTokenEnd self.now place }
    {
        tokens_have_texts(self);
        if self.is_within_word(place) {
            return false;
        }
        let token = self.first_ending_from(place);
        token < self.len() && self.end(token) == place
    }

    // Whether letters of words are right before a place and at it, as far as bytes of ASCII show. No token ends there: a blank would be
    // between them.
    fn is_within_word(&self, place: usize) -> bool
        ensures { IsTrue result → ¬ (IsTokenEnd self.now place) }
    {
        tokens_have_texts(self);
        let bytes = self.spelled.as_bytes();
        if place == 0 || place >= bytes.len() {
            return false;
        }
        is_word_byte(bytes[place - 1]) && is_word_byte(bytes[place])
    }

    /// The place from which a blank leads to this one: that of the blank of the text before it, this place itself, or none.
    pub(crate) fn over_blank(&self, place: usize) -> Option<usize>
        ensures { MatchOption result ((p : ℕ) → ¬ (OverBlank self.now p place))
            (λ p. OverBlank self.now p place) }
    {
        if self.is_after_blank(place) {
            return Some(place - 1);
        }
        if place == 0 || self.is_blank(place) || self.is_token_end(place) {
            return Some(place);
        }
        None
    }

    /// Whether a letter begins at a place, or the text ends there.
    pub(crate) fn is_letter_place(&self, place: usize) -> bool
        requires { place ≤ length (spelling_of self.now) }
        ensures { IsTrue result ↔ IsLetterPlace self.now place }
    {
        match self.spelled.as_bytes().get(place) {
            None => true,
            Some(byte) => *byte != b' ' && (*byte < 0x80 || *byte >= 0xC0),
        }
    }
}

// Whether a byte is a letter of ASCII that is of words.
fn is_word_byte(byte: u8) -> bool
    ensures { IsTrue result → IsWordByte byte }
{
    byte.is_ascii() && is_word(byte as char)
}

// Where `count` tokens of a list, from a token on, begin in its canonical spelling, and their own spelling.
fn spelled_from(tokens: &TokenList, first: usize, count: usize) -> (usize, &str)
    requires { first + count ≤ length tokens.now }
    ensures { AreSpelledFrom tokens.now first count result.0 result.1.now }
{
    tokens.texts_are_utf8();
    tokens.texts_are_token_texts();
    let _length = tokens.len();
    if count == 0 {
        return (0, "");
    }
    let start = tokens.place(first).start;
    let end = tokens.place(first + count - 1).end;
    (start, utf8_text(&tokens.spelled()[start..end]))
}

/// The texts of tokens are in UTF-8, and none is empty.
pub fn tokens_have_texts(view: &View<'_>)
    ensures { AreTexts view.now }
{
    let _ = &view.tokens;
}
