//! Laws of equivalent words, each the contract of a function that does nothing.

ghost use Rattle.std.specs.Prelude.{◌≡◌, ℕ, List};
ghost use Rattle.lic_phrases.specs.Classes.{Equivalent, OnOneLine};

pub use crate::words::spellings_are_token_texts;

/// To be joined by a chain of lines, each sharing a phrase with the next, is an equivalence: it is reflexive, symmetric and transitive. It
/// joins the phrases of one line, and no others than it must: what is alike on each line is alike along a chain.
pub fn chains_join_phrases()
    ensures itself { (lines : List (List (List (List ℕ)))) (p : List (List ℕ))
        → Equivalent lines p p }
    ensures back { (lines : List (List (List (List ℕ)))) (p q : List (List ℕ))
        → Equivalent lines p q → Equivalent lines q p }
    ensures through { (lines : List (List (List (List ℕ)))) (p q r : List (List ℕ))
        → Equivalent lines p q → Equivalent lines q r → Equivalent lines p r }
    ensures line { (lines : List (List (List (List ℕ)))) (p q : List (List ℕ))
        → OnOneLine lines p q → Equivalent lines p q }
    ensures least { (lines : List (List (List (List ℕ)))) (f : List (List ℕ) → ℕ)
        → ((x y : List (List ℕ)) → OnOneLine lines x y → f x ≡ f y)
        → (p q : List (List ℕ)) → Equivalent lines p q → f p ≡ f q }
{}
