//! The letters that a character is compared as.

ghost use Rattle.std.specs.Prelude.{◌≡◌, ◌∷◌, [], IfOk, IsOk};
ghost use Rattle.caseless.specs.Caseless.{default_case_fold};
ghost use Rattle.lic_kind.specs.Kinds.{kind_of, spell, letter_of};

use crate::tables::{is_dash, is_quote};
use crate::{Kind, kind_of};
use caseless::Caseless;
use smallvec::SmallVec;
use std::alloc::{AllocError, Global};
use std::iter::once;

/// The letters that a character is compared as (this project's profile): one blank for white space,
/// none for a dropped character, `-` for a dash, `'` for a quote, any other mark itself, and for a
/// word character its full case folding (The Unicode Standard, toCasefold). A word character whose
/// folding holds a character of another kind would stay as it is; Unicode has none.
///
/// The answer is never an error: it can hold four letters and no folding has more than three,
/// so no memory is asked for.
#[tactic(auto, using(crate::proofs::WordFoldings::letter_rules))]
pub fn spell(alloc: Global, c: char) -> Result<SmallVec<char, 4, Global>, AllocError>
    ensures letters { IfOk result (λ letters. letters.items ≡ spell c) }
    ensures succeeds { IsOk result }
{
    match kind_of(c) {
        Kind::Blank => SmallVec::from_slice(alloc, &[' ']),
        Kind::Dropped => Ok(SmallVec::new(alloc)),
        Kind::Mark => SmallVec::from_slice(alloc, &[letter_of(c)]),
        // Most of a text is ASCII, which needs no look into Unicode's tables.
        Kind::Word if c.is_ascii() => SmallVec::from_slice(alloc, &[c.to_ascii_lowercase()]),
        // No folding of a word character holds another kind, as the laws say.
        Kind::Word => folding(alloc, c),
    }
}

/// The one letter of a mark: `-` for a dash, `'` for a quote, and any other mark itself.
#[tactic(auto, using(crate::proofs::WordFoldings::letter_rules))]
pub fn mark_letter(c: char) -> char
    requires { kind_of c ≡ Kind.Mark }
    ensures { spell c ≡ result ∷ [] }
{
    letter_of(c)
}

fn letter_of(c: char) -> char
    ensures { result ≡ letter_of c }
{
    if is_dash(c) {
        '-'
    } else if is_quote(c) {
        '\''
    } else {
        c
    }
}

/// The full case folding of one character.
fn folding(alloc: Global, c: char) -> Result<SmallVec<char, 4, Global>, AllocError>
    ensures letters { IfOk result (λ letters. letters.items ≡ default_case_fold (c ∷ [])) }
    ensures succeeds { IsOk result }
{
    let mut letters = SmallVec::new(alloc);
    letters.extend(once(c).default_case_fold())?;
    Ok(letters)
}
