//! The set of letters that a bracket means.
ghost use Rattle.std.specs.Prelude.{◌≡◌, ◌↔◌, ◌==◌, ◌&&◌, IsTrue, IfOk};
ghost use Rattle.std.specs.List.{list_any};
ghost use Rattle.lic_ere.specs.Sets.{image, meets, meets_any, has_image, is_in, IsIn};

use lic_kind::{is_dash, is_quote};
use std::alloc::{AllocError, Global};
use std::marker::Model;

/// A member of a bracket: the characters from the first to the last by scalar value.
#[derive(Clone, Copy, Debug)]
pub struct Member {
    pub first: char,
    pub last: char,
}

/// What a bracket says.
#[derive(Debug, Drop)]
struct Bracket {
    members: Vec<Member>,
    complement: bool,
}

/// The set of letters that a bracket means. It is boxed, since the other nodes of a tree are smaller.
#[derive(Debug, Drop)]
pub struct Class {
    bracket: Box<Bracket>,
}

impl Model for Class {
    ghost use Rattle.lic_ere.specs.Sets.{Brackets};

    ghost Value = { Brackets };

    ghost view = { λ c. record {
      members = c.bracket.value.members.items;
      complement = c.bracket.value.complement;
    } };
}

impl Class {
    /// What a bracket says.
    pub(crate) fn new(
        alloc: Global,
        members: Vec<Member>,
        complement: bool,
    ) -> Result<Class, AllocError>
        ensures members { IfOk result (λ class. class.members ≡ members.items) }
        ensures complement { IfOk result (λ class. class.complement ≡ complement) }
    {
        let bracket = Bracket {
            members,
            complement,
        };
        Ok(Class {
            bracket: Box::new(alloc, bracket)?,
        })
    }

    /// The same set once more.
    ///
    /// # Errors
    /// Memory ran out.
    pub fn copy(&self, alloc: Global) -> Result<Class, AllocError>
        ensures { IfOk result (λ copy. copy ≡ self.now) }
    {
        let members = Vec::from_slice(alloc, &self.bracket.members)?;
        Class::new(alloc, members, self.bracket.complement)
    }

    /// Whether the letter is in the set: some character of the bracket has it as its image, or, after
    /// a `^`, none has.
    pub fn has(&self, letter: char) -> bool
        ensures meaning { IsTrue result ↔ IsIn self.now letter }
        // The same as a test.
        ensures value { result ≡ is_in self.now letter }
    {
        let named = any_has_image(&self.bracket.members, letter);
        if self.bracket.complement {
            !named
        } else {
            named
        }
    }
}

/// The characters whose image is a blank.
const SPACES: [(char, char); 10] = [
    ('\u{9}', '\u{D}'),
    (' ', ' '),
    ('\u{85}', '\u{85}'),
    ('\u{A0}', '\u{A0}'),
    ('\u{1680}', '\u{1680}'),
    ('\u{2000}', '\u{200A}'),
    ('\u{2028}', '\u{2029}'),
    ('\u{202F}', '\u{202F}'),
    ('\u{205F}', '\u{205F}'),
    ('\u{3000}', '\u{3000}'),
];

/// The characters whose image is `-`.
const DASHES: [(char, char); 6] = [
    ('-', '-'),
    ('\u{2010}', '\u{2015}'),
    ('\u{2212}', '\u{2212}'),
    ('\u{FE58}', '\u{FE58}'),
    ('\u{FE63}', '\u{FE63}'),
    ('\u{FF0D}', '\u{FF0D}'),
];

/// The characters whose image is `'`.
const QUOTES: [(char, char); 8] = [
    ('"', '"'),
    ('\'', '\''),
    ('`', '`'),
    ('\u{B4}', '\u{B4}'),
    ('\u{AB}', '\u{AB}'),
    ('\u{BB}', '\u{BB}'),
    ('\u{2018}', '\u{201F}'),
    ('\u{2039}', '\u{203A}'),
];

/// The letter that a character means inside a bracket.
#[tactic(auto, unfolding(crate::specs::Sets::image))]
fn image(character: char) -> char
    ensures { result ≡ image character }
{
    if character.is_ascii_uppercase() {
        character.to_ascii_lowercase()
    } else if is_dash(character) {
        '-'
    } else if is_quote(character) {
        '\''
    } else if character.is_whitespace() {
        ' '
    } else {
        character
    }
}

/// Whether a member and a range share a character.
fn meets(member: Member, first: char, last: char) -> bool
    ensures { result ≡ meets member (first, last) }
{
    member.first.max(first) <= member.last.min(last)
}

fn meets_any(member: Member, ranges: &[(char, char)]) -> bool
    ensures { result ≡ meets_any member ranges.now }
{
    ranges.iter().any(|range| meets(member, range.0, range.1))
}

/// Whether a letter is its own image, and in a member.
fn has_itself(member: Member, letter: char) -> bool
    ensures { result ≡ (image letter == letter && meets member (letter, letter)) }
{
    (image(letter) == letter) & meets(member, letter, letter)
}

/// Whether some character of a member has this letter as its image.
fn has_image(member: Member, letter: char) -> bool
    ensures { result ≡ has_image member letter }
{
    if letter.is_ascii_lowercase() {
        let capital = letter.to_ascii_uppercase();
        return meets(member, letter, letter) | meets(member, capital, capital);
    }
    match letter {
        '-' => meets_any(member, &DASHES),
        '\'' => meets_any(member, &QUOTES),
        ' ' => meets_any(member, &SPACES),
        _ => has_itself(member, letter),
    }
}

fn any_has_image(members: &[Member], letter: char) -> bool
    ensures { result ≡ list_any (λ m. has_image m letter) members.now }
{
    members.iter().any(|member| has_image(*member, letter))
}
