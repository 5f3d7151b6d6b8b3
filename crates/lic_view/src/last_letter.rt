//! The letter before a place of a text.

ghost use Rattle.std.specs.Prelude.{◌≡◌, ℕ, MatchOption};
ghost use Rattle.lic_view.specs.LettersBefore.{IsLetterBefore};

/// Where the letter before a place begins, and this letter. A place is a number of bytes.
pub(crate) fn last_letter(text: &str, place: usize) -> Option<(usize, char)>
    ensures { MatchOption result ((p c : ℕ) → ¬ (IsLetterBefore text.now place p c))
        (λ found. IsLetterBefore text.now place found.0 found.1) }
{
    if !text.is_char_boundary(place) {
        return None;
    }
    let mut letters = text[..place].chars();
    let letter = letters.next_back()?;
    Some((letters.as_str().len(), letter))
}
