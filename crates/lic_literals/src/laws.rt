//! Laws of literals in bytes, each the contract of a function that does nothing.

ghost use Rattle.std.specs.Prelude.{◌≡◌, ◌<◌, ◌+◌, ℕ, List, length, slice_range};
ghost use Rattle.lic_literals.specs.Ends.{EndsAt};

/// A literal ends at an offset exactly if its bytes are right before that offset.
pub fn a_literal_ends_where_its_bytes_occur()
    ensures from_range { (bytes literal : List ℕ) (p q : ℕ) → 0 < length literal
        → q ≡ p + length literal → slice_range bytes p q ≡ literal → EndsAt bytes literal q }
    ensures range { (bytes literal : List ℕ) (p q : ℕ) → EndsAt bytes literal q
        → q ≡ p + length literal → slice_range bytes p q ≡ literal }
{}
