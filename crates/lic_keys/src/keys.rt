//! A prefilter over templates, by the longest text of each.

ghost use Rattle.std.specs.Prelude.{◌≡◌, ◌<◌, ◌↔◌, ℕ, map, filter, length, All, Contains, IfOk, IfSome};
ghost use Rattle.std.specs.List.Sorted.{IsStrictlyIncreasing};
ghost use Rattle.std.specs.Option.{option_map};
ghost use Rattle.lic_literals.specs.Ends.{EndsAt};
ghost use Rattle.lic_keys.specs.Keys.{AreKeysOf, IsKeyOf, letters_of, text_of};
ghost use Rattle.lic_keys.specs.Candidates.{IsCandidateIn, ends_at};

use crate::Candidate;
use crate::longest::longest_text;
use crate::required_ends::RequiredEnds;
use lic_literals::ends_within;
use lic_markup::Template;
use lic_markup::laws::texts_are_those_of_pieces;
use std::alloc::{AllocError, Global};
use std::fmt;
use std::marker::Model;

/// The longest texts of templates, which are looked for together.
#[derive(Drop)]
pub struct Keys {
    // the letters of the longest text of each template, or none
    literals: lic_literals::Prefilter,
    // the number of this text among the parts, if there is one
    texts: Vec<Option<usize>>,
}

impl Model for Keys {
    ghost use Rattle.lic_keys.specs.Keys.{HaveLetters, KeysValue};

    ghost Value = { KeysValue };

    ghost view = { λ a. record { texts = a.texts.items; letters = a.literals } };

    ghost invariant = { λ a. HaveLetters a.texts.items a.literals };
}

impl Keys {
    /// The longest text of each template outside optional parts, if some such text has letters.
    ///
    /// # Errors
    ///
    /// Fails if memory runs out.
    pub fn build(alloc: Global, templates: &[&Template]) -> Result<Keys, AllocError>
        ensures { IfOk result (AreKeysOf (map (λ t. t.now.parts) templates.now)) }
    {
        let mut texts = Vec::with_capacity(alloc, templates.len())?;
        let mut letters: Vec<&[u8]> = Vec::with_capacity(alloc, templates.len())?;
        for template in templates {
            let (text, own) = key_of(template);
            texts.push(text)?;
            letters.push(own)?;
        }
        let literals = lic_literals::Prefilter::build(alloc, &letters)?;
        Ok(Keys { literals, texts })
    }

    /// The templates that have no text and those whose text may occur in the bytes, by rising numbers.
    ///
    /// # Errors
    ///
    /// Fails if memory runs out.
    pub fn candidates(&self, alloc: Global, bytes: &[u8]) -> Result<Vec<Candidate>, AllocError>
        ensures rising { IfOk result (λ found. IsStrictlyIncreasing (map (λ c. c.number) found.items)) }

        // A template whose letters end somewhere is a candidate. Where it has none, they end at each place.
        ensures others { IfOk result (λ found. (number e : ℕ) → number < length self.now.texts
            → EndsAt bytes.now (letters_of self.now number) e
            → Contains (map (λ c. c.number) found.items) number) }
        ensures each { IfOk result (λ found. All (IsCandidateIn self.now bytes.now) found.items) }
    {
        self.literals.kept(alloc, bytes)
    }

    /// Where the text of a candidate ends in the bytes in which it was found; none where the template has no text.
    ///
    /// # Errors
    ///
    /// Fails if memory runs out.
    pub fn ends(
        &self,
        alloc: Global,
        bytes: &[u8],
        candidate: &Candidate,
    ) -> Result<Option<RequiredEnds>, AllocError>
        requires { IsCandidateIn self.now bytes.now candidate.now }
        ensures part { IfOk result (λ found.
            option_map (λ ends. ends.part) found ≡ text_of self.now candidate.now.number) }
        ensures exact { IfOk result (λ found. IfSome found (λ ends. (e : ℕ) → Contains ends.places.items e
            ↔ EndsAt bytes.now (letters_of self.now candidate.now.number) e)) }
        ensures rising { IfOk result (λ found. IfSome found (λ ends. IsStrictlyIncreasing ends.places.items)) }
    {
        let Some(part) = self.texts[candidate.number] else {
            return Ok(None);
        };
        let letters = self.literals.literal(candidate.number);
        let places = match candidate.ends(alloc)? {
            Some(places) => true_ends(bytes, letters, places),
            None => ends_within(alloc, bytes, letters, 0, bytes.len())?,
        };
        Ok(Some(RequiredEnds { part, places }))
    }
}

impl fmt::Debug for Keys {
    fn fmt<W: fmt::Write>(&self, f: &mut fmt::Formatter<W>) -> fmt::Result {
        f.write_str("Keys")
    }
}

// The number and the letters of the longest text of a template, or none.
fn key_of(template: &Template) -> (Option<usize>, &[u8])
    ensures { IsKeyOf template.now.parts result.0 result.1.now }
{
    texts_are_those_of_pieces(template);
    match longest_text(template.parts()) {
        Some(text) => (Some(text.number), text.letters),
        None => (None, &[]),
    }
}

// The places among these at which the letters end.
fn true_ends(bytes: &[u8], letters: &[u8], mut places: Vec<usize>) -> Vec<usize>
    ensures { result.items ≡ filter (ends_at bytes.now letters.now) places.items }
{
    places.retain(|end| ends_at(bytes, letters, *end));
    places
}

// Whether the letters end at a place.
fn ends_at(bytes: &[u8], letters: &[u8], end: usize) -> bool
    ensures { result ≡ ends_at bytes.now letters.now end }
{
    if end < letters.len() || end > bytes.len() {
        return false;
    }
    &bytes[end - letters.len()..end] == letters
}
