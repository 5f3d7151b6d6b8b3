//! Laws of kinds and letters, each the contract of a function that does nothing.

ghost use Rattle.std.specs.Prelude.{◌≡◌, ◌<◌, ◌↔◌, ℕ, [], ◌∷◌, All, IsTrue, length, true, false};
ghost use Rattle.std.specs.Char.{is_whitespace, to_ascii_lowercase};
ghost use Rattle.caseless.specs.Caseless.{default_case_fold};
ghost use Rattle.lic_kind.specs.Kinds.{
  kind_of,
  is_dropped,
  is_dash,
  is_quote,
  is_bullet,
  is_mark,
  spell,
};

use crate::Kind;

/// No character is in two tables, so each table alone decides its kind.
pub fn tables_decide_kinds()
    ensures dropped { (c : ℕ) → IsTrue (is_dropped c) ↔ (kind_of c ≡ Kind.Dropped) }
    ensures blank { (c : ℕ) → IsTrue (is_whitespace c) ↔ (kind_of c ≡ Kind.Blank) }
    ensures mark { (c : ℕ) → IsTrue (is_mark c) ↔ (kind_of c ≡ Kind.Mark) }
{}

/// Dashes, quotes and bullets are marks, and none is of two of these families.
pub fn families_are_apart()
    ensures dash { (c : ℕ) → IsTrue (is_dash c) → kind_of c ≡ Kind.Mark }
    ensures quote { (c : ℕ) → IsTrue (is_quote c) → kind_of c ≡ Kind.Mark }
    ensures bullet { (c : ℕ) → IsTrue (is_bullet c) → kind_of c ≡ Kind.Mark }
    ensures quote_no_dash { (c : ℕ) → IsTrue (is_quote c) → is_dash c ≡ false }
    ensures bullet_no_dash { (c : ℕ) → IsTrue (is_bullet c) → is_dash c ≡ false }
    ensures bullet_no_quote { (c : ℕ) → IsTrue (is_bullet c) → is_quote c ≡ false }
{}

/// White space becomes one blank, a dropped character nothing, each dash `-`, each quote `'`, and
/// any other mark itself.
pub fn letters_by_kind()
    ensures blank { (c : ℕ) → kind_of c ≡ Kind.Blank → spell c ≡ 0x20 ∷ [] }
    ensures dropped { (c : ℕ) → kind_of c ≡ Kind.Dropped → spell c ≡ [] }
    ensures dash { (c : ℕ) → IsTrue (is_dash c) → spell c ≡ 0x2D ∷ [] }
    ensures quote { (c : ℕ) → IsTrue (is_quote c) → spell c ≡ 0x27 ∷ [] }
    ensures other_mark { (c : ℕ) → kind_of c ≡ Kind.Mark → is_dash c ≡ false → is_quote c ≡ false
        → spell c ≡ c ∷ [] }
{}

/// The letter of a mark is a mark, and the letters of a word character are word characters, none
/// of them white space.
pub fn letters_keep_the_kind()
    ensures mark { (c : ℕ) → kind_of c ≡ Kind.Mark → All (λ d. kind_of d ≡ Kind.Mark) (spell c) }
    ensures word { (c : ℕ) → kind_of c ≡ Kind.Word → All (λ d. kind_of d ≡ Kind.Word) (spell c) }
    ensures no_blank { (c : ℕ) → kind_of c ≡ Kind.Word
        → All (λ d. is_whitespace d ≡ false) (spell c) }
{}

/// The letters of a word character are its full case folding: no folding of a word character holds
/// a character of another kind, so the exception that the definition makes is of no character.
pub fn words_are_folded()
    ensures folding { (c : ℕ) → kind_of c ≡ Kind.Word → spell c ≡ default_case_fold (c ∷ []) }
    ensures ascii { (c : ℕ) → kind_of c ≡ Kind.Word → c < 128
        → spell c ≡ to_ascii_lowercase c ∷ [] }
{}

/// A word character has a letter, since the folding of a character is not empty.
pub fn words_have_letters()
    ensures { (c : ℕ) → kind_of c ≡ Kind.Word → 0 < length (spell c) }
{}
