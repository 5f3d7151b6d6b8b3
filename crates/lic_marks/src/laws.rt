//! Laws of the position automaton, each the contract of a function that does nothing. A mark says that a position is active.

ghost use Rattle.std.specs.Prelude.{◌≡◌, ◌≢◌, ◌↔◌, ◌++◌, ◌∷◌, ◌==◌, ◌||◌, ◌⊎◌, [], ℕ, Bool, List, IsTrue, true, false};
ghost use Rattle.lic_words.specs.Words.{blank};
ghost use Rattle.lic_words.specs.Describing.{IsDescribed};
ghost use Rattle.lic_words.specs.Expressions.{Expression, Language};
ghost use Rattle.lic_words.specs.Spelling.{Gap, no_gap, SpellsGapped};
ghost use Rattle.lic_marks.specs.Cores.{Core, WordsOf, core};
ghost use Rattle.lic_marks.specs.Marks.{Marks, no_marks, join, can_leave, shift};
ghost use Rattle.lic_marks.specs.Continuations.{Completes, Continues};
ghost use Rattle.lic_marks.specs.Deciding.{is_described};
ghost use Rattle.lic_marks.specs.Representing.{RepresentsAtOnce, Represents, Gathers, IsClosed, shift_over};

/// An expression with its repetitions written out denotes the same words.
pub fn a_core_has_the_words_of_its_expression()
    ensures { (e : Expression) (w : List ℕ) → WordsOf (core e) w ↔ Language e w }
{}

/// Where nothing is marked and one may begin, each word may follow.
pub fn all_words_follow_the_beginning()
    ensures { (r : Core) (after : Bool) (v : List ℕ)
        → Continues r after true (no_marks r) v ↔ WordsOf r v }
{}

/// What may follow after a letter is what could follow before it and begins with that letter.
pub fn a_letter_is_taken()
    ensures { (r : Core) (after entry : Bool) (m : Marks r) (c : ℕ) (v : List ℕ)
        → Completes r (c == blank) (shift r after entry m c) v ↔ Continues r after entry m (c ∷ v) }
{}

/// One may leave the expression exactly where nothing more need follow.
pub fn leaving_is_continuing_with_nothing()
    ensures { (r : Core) (after entry : Bool) (m : Marks r)
        → IsTrue (can_leave r after entry m) ↔ Continues r after entry m [] }
{}

/// Where nothing is marked and one may not begin, a letter marks nothing, and one cannot leave.
pub fn no_marks_stay_none()
    ensures shift { (r : Core) (after : Bool) (c : ℕ)
        → shift r after false (no_marks r) c ≡ no_marks r }
    ensures leave { (r : Core) (after : Bool) → can_leave r after false (no_marks r) ≡ false }
{}

/// What follows joined marks follows the one or the other.
pub fn joined_marks_represent_either()
    ensures { (r : Core) (after : Bool) (m n : Marks r) (v : List ℕ)
        → Completes r after (join r m n) v ↔ (Completes r after m v ⊎ Completes r after n v) }
{}

/// Where no letter was read and a word may begin, no position is marked.
pub fn marks_begin_before_the_first_letter()
    ensures { (r : Core) → RepresentsAtOnce r true (no_marks r) [] }
{}

/// Marks gathered over blanks until one more blank marks nothing new say what may follow after blanks.
pub fn closed_marks_represent_what_follows_blanks()
    ensures { (r : Core) (entry : Bool) (at_once after_blanks : Marks r) (letters : List (Gap × ℕ))
        → RepresentsAtOnce r entry at_once letters → Gathers r entry at_once after_blanks
        → IsClosed r after_blanks
        → Represents r entry at_once after_blanks letters }
{}

/// From the marks for some letters, those for one letter more, which is no blank, with no gap before it.
pub fn marks_go_over_a_letter()
    ensures { (r : Core) (entry : Bool) (at_once : Marks r) (letters : List (Gap × ℕ)) (c : ℕ)
        → RepresentsAtOnce r entry at_once letters → c ≢ blank
        → RepresentsAtOnce r false (shift r false entry at_once c) (letters ++ (no_gap, c) ∷ []) }
{}

/// From the marks for some letters, those for one letter more, which is no blank, and the gap before it.
pub fn marks_go_over_a_gap_and_a_letter()
    ensures { (r : Core) (entry : Bool) (at_once after_blanks : Marks r) (letters : List (Gap × ℕ))
        (gap : Gap) (c : ℕ)
        → Represents r entry at_once after_blanks letters → c ≢ blank
        → RepresentsAtOnce r false (shift_over r entry at_once after_blanks gap c)
        (letters ++ (gap, c) ∷ []) }
{}

/// One may leave the one marks or the other exactly where a word spells the letters.
pub fn leaving_is_spelling()
    ensures { (r : Core) (entry : Bool) (at_once after_blanks : Marks r) (letters : List (Gap × ℕ))
        → Represents r entry at_once after_blanks letters
        → IsTrue (can_leave r false entry at_once || can_leave r true false after_blanks)
        ↔ ((w : List ℕ) × WordsOf r w × SpellsGapped w letters) }
{}

/// Where no mark is left, no word spells letters that begin so.
pub fn no_marks_are_for_good()
    ensures { (r : Core) (letters more : List (Gap × ℕ)) → RepresentsAtOnce r false (no_marks r) letters
        → (w : List ℕ) → WordsOf r w → ¬ (SpellsGapped w (letters ++ more)) }
{}

/// Whether an expression describes a list of tokens is decided by a test that computes.
pub fn whether_an_expression_describes_is_decided()
    ensures { (e : Expression) (ts : List (List ℕ))
        → IsTrue (is_described e ts) ↔ IsDescribed e ts }
{}
