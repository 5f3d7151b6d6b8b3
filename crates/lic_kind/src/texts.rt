//! Texts of line rules.
ghost use Rattle.std.specs.Prelude.{◌≡◌, ◌<◌, [], length, map, slice_index_or};
ghost use Rattle.std.specs.Str.{chars};
ghost use Rattle.lic_kind.specs.RuleTexts.{characters_in, read_in};

use crate::rule_text::RuleText;

/// A text of the profile, as a string and as its characters.
pub(crate) type FixedText = (&'static str, &'static [char]);

/// Texts of the program, or of a file.
#[derive(Drop)]
enum Held {
    Fixed(&'static [FixedText]),
    Owned(Vec<RuleText>),
}

/// The texts of one kind of line rule, in order.
#[derive(Drop)]
pub struct Texts {
    held: Held,
    ghost same: { read_in held ≡ characters_in held },
}

impl Texts {
    ghost use Rattle.lic_kind.specs.TextLists.{texts_of};

    pub(crate) fn fixed(texts: &'static [FixedText]) -> Texts
        requires { map (λ text. chars text.0.now) texts.now ≡ map (λ text. text.1.now) texts.now }
        ensures { texts_of result ≡ map (λ text. text.1.now) texts.now }
    {
        Texts {
            held: Held::Fixed(texts),
        }
    }

    pub(crate) fn owned(texts: Vec<RuleText>) -> Texts
        ensures { texts_of result ≡ map (λ text. text.characters.items) texts.items }
    {
        Texts {
            held: Held::Owned(texts),
        }
    }

    /// How many texts there are.
    pub fn len(&self) -> usize
        ensures { result ≡ length (texts_of self.now) }
    {
        match &self.held {
            Held::Fixed(texts) => texts.len(),
            Held::Owned(texts) => texts.len(),
        }
    }

    /// The text of this number, counted from 0.
    pub fn text(&self, i: usize) -> &str
        requires { i < length (texts_of self.now) }
        ensures { chars result.now ≡ slice_index_or (texts_of self.now) i [] }
    {
        match &self.held {
            Held::Fixed(texts) => {
                let texts = *texts;
                texts[i].0
            }
            Held::Owned(texts) => texts[i].string.as_str(),
        }
    }

    /// The characters of the text of this number, counted from 0.
    pub fn characters(&self, i: usize) -> &[char]
        requires { i < length (texts_of self.now) }
        ensures { result.now ≡ slice_index_or (texts_of self.now) i [] }
    {
        match &self.held {
            Held::Fixed(texts) => {
                let texts = *texts;
                texts[i].1
            }
            Held::Owned(texts) => &texts[i].characters,
        }
    }
}
