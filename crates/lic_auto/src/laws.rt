//! Laws of the definitions below.

ghost use Rattle.std.specs.Prelude.{◌↔◌, ℕ, List, IsTrue};
ghost use Rattle.lic_words.specs.Describing.{IsDescribed};
ghost use Rattle.lic_words.specs.Expressions.{Expression};
ghost use Rattle.lic_marks.specs.Deciding.{is_described};

/// Whether an expression describes a list of tokens is decided by a test that computes.
pub fn whether_an_expression_describes_is_decided()
    ensures { (e : Expression) (ts : List (List ℕ))
        → IsTrue (is_described e ts) ↔ IsDescribed e ts }
{
    lic_marks::laws::whether_an_expression_describes_is_decided();
}
