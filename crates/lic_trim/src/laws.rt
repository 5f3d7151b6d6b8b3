//! Laws of the definitions, each the contract of a function that does nothing.

ghost use Rattle.std.specs.Prelude.{◌↔◌, ℕ, Bool, IsTrue, List};
ghost use Rattle.lic_trim.specs.Texts.{IsSequence, is_sequence};

/// A text is a sequence of pieces, joined end to end, exactly where the test that computes it says so.
pub fn sequences_are_what_the_test_says()
    ensures { (is_piece : List ℕ → Bool) (text : List ℕ)
        → IsTrue (is_sequence is_piece text) ↔ IsSequence is_piece text }
{}
