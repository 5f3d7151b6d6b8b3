//! The longest text of a template.

ghost use Rattle.std.specs.Prelude.{◌≡◌, length, map, MatchOption};
ghost use Rattle.lic_markup.specs.Parts.{part_of, sequence};
ghost use Rattle.lic_markup.specs.PartTexts.{HavePieceTexts};
ghost use Rattle.lic_keys.specs.Required.{HasNoLetters, IsLongestText};

use lic_markup::Part;
use lic_places::edges_of;

/// The letters of a text of a template, without the blanks at its edges, and the number of the text among the parts.
#[derive(Clone, Copy, Debug)]
pub struct LongestText<'t> {
    pub number: usize,
    pub letters: &'t [u8],
}

/// The longest text of a template outside optional parts, the first of these if several are as long; None if none has letters.
pub fn longest_text(parts: &[Part]) -> Option<LongestText<'_>>
    requires { HavePieceTexts (sequence (map part_of parts.now)) }
    ensures { MatchOption result (HasNoLetters parts.now)
        (λ text. IsLongestText parts.now text.number text.letters.now) }
{
    let mut longest: Option<LongestText<'_>> = None;
    for (number, part) in parts.iter().enumerate() {
        if let Part::Text(text) = part {
            let letters = edges_of(text).letters;
            if letters.len() > letter_count(longest) {
                longest = Some(LongestText { number, letters });
            }
        }
    }
    longest
}

// How many bytes the letters of a text have: none where there is no text.
fn letter_count(text: Option<LongestText<'_>>) -> usize
    ensures { MatchOption text.entry (result ≡ 0) (λ text. result ≡ length text.letters.now) }
{
    text.map_or(0, |text| text.letters.len())
}
