//! A law of required texts, the contract of a function that does nothing.

ghost use Rattle.std.specs.Prelude.{◌<◌, ◌≤◌, ◌+◌, ℕ, List, map, length, slice_range};
ghost use Rattle.std.specs.Str.{chars};
ghost use Rattle.lic_words.specs.Describing.{IsDescribed};
ghost use Rattle.lic_markup.specs.declared.part.Part.{Part};
ghost use Rattle.lic_markup.specs.Meaning.{parts_words};
ghost use Rattle.lic_markup.specs.Parts.{part_of};
ghost use Rattle.lic_norm.specs.Tokens.{TokenValue};
ghost use Rattle.lic_places.specs.Places.{AreTexts, spelling_of};
ghost use Rattle.lic_literals.specs.Ends.{EndsAt};
ghost use Rattle.lic_keys.specs.Required.{HasLetters};

/// The letters of each text outside optional parts end within the canonical spelling of tokens of which the template describes a
/// range.
pub fn a_template_describes_no_range_without_its_required_text()
    ensures occurs { (tokens : List TokenValue) (parts : List Part) (number first last : ℕ) (letters : List ℕ)
        → AreTexts tokens → HasLetters parts number letters → first ≤ last → last < length tokens
        → IsDescribed (parts_words (map part_of parts))
        (map (λ t. chars t.text) (slice_range tokens first (last + 1)))
        → (e : ℕ) × EndsAt (spelling_of tokens) letters e }
    ensures absent { (tokens : List TokenValue) (parts : List Part) (number first last : ℕ) (letters : List ℕ)
        → AreTexts tokens → HasLetters parts number letters → first ≤ last → last < length tokens
        → ((e : ℕ) → ¬ EndsAt (spelling_of tokens) letters e)
        → ¬ IsDescribed (parts_words (map part_of parts))
        (map (λ t. chars t.text) (slice_range tokens first (last + 1))) }
{}
