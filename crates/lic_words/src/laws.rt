//! Laws of the definitions, each the contract of a function that does nothing.

ghost use Rattle.std.specs.Prelude.{◌≡◌, ◌≢◌, ◌≤◌, ◌↔◌, ◌++◌, ◌∷◌, [], ◌==◌, ℕ, List, All, IsTrue, Option, Some, None, map, not, replicate, reverse};
ghost use Rattle.std.specs.List.{concat, filter};
ghost use Rattle.lic_words.specs.Describing.{IsDescribed};
ghost use Rattle.lic_words.specs.Expressions.{Expression, Language, alt, alt_all, cat_all, empty, letter, letters, repeat, tidy};
ghost use Rattle.lic_words.specs.Letters.{is_word};
ghost use Rattle.lic_words.specs.Reversal.{reversed_expression, reversed_tokens};
ghost use Rattle.lic_words.specs.Spelling.{Spells};
ghost use Rattle.lic_words.specs.Words.{Cat, blank, blanks};

/// Letters in a row have one word, themselves.
pub fn letters_denote_themselves()
    ensures { (text w : List ℕ) → Language (letters text) w ↔ (w ≡ text) }
{}

/// Texts in a row have one word, their letters one after another.
pub fn texts_denote_their_letters()
    ensures { (texts : List (List ℕ)) (w : List ℕ)
        → Language (cat_all (map letters texts)) w ↔ (w ≡ concat texts) }
{}

/// A word of two sequences of expressions together is a word of the first and then one of the second.
pub fn joined_sequences_denote_both()
    ensures { (xs ys : List Expression) (w : List ℕ)
        → Language (cat_all (xs ++ ys)) w ↔ Cat (Language (cat_all xs)) (Language (cat_all ys)) w }
{}

/// An optional part of nothing but an optional part has the words of that part.
pub fn optional_twice_is_optional()
    ensures { (a : Expression) (w : List ℕ)
        → Language (alt empty (cat_all (alt empty a ∷ []))) w ↔ Language (alt empty a) w }
{}

/// A repeated letter has as words the letter as often as the bounds say, and no others.
pub fn repetitions_stay_within_their_bounds()
    ensures between { (c min max n : ℕ)
        → Language (repeat min (Some max) (letter c)) (replicate n c) ↔ ((min ≤ n) × (n ≤ max)) }
    ensures at_least { (c min n : ℕ)
        → Language (repeat min None (letter c)) (replicate n c) ↔ (min ≤ n) }
    ensures only { (c min : ℕ) (max : Option ℕ) (w : List ℕ)
        → Language (repeat min max (letter c)) w → (n : ℕ) × (w ≡ replicate n c) }
{}

/// Alternatives have the words of each of them.
pub fn alternatives_denote_each_of_them()
    ensures { (xs : List Expression) (w : List ℕ) → Language (alt_all xs) w
        ↔ ((front back : List Expression) × (a : Expression) × (xs ≡ front ++ a ∷ back)
        × Language a w) }
{}

/// No tidy word has a blank first, a blank last, or two blanks together.
pub fn tidy_words_have_no_loose_blanks()
    ensures first { (a : Expression) (v : List ℕ) → ¬ (Language (tidy a) (blank ∷ v)) }
    ensures last { (a : Expression) (u : List ℕ) → ¬ (Language (tidy a) (u ++ blank ∷ [])) }
    ensures two { (a : Expression) (u v : List ℕ) → ¬ (Language (tidy a) (u ++ blank ∷ blank ∷ v)) }
{}

/// A word with no blank is tidy.
pub fn words_without_blanks_are_tidy()
    ensures { (a : Expression) (w : List ℕ) → All (λ c. c ≢ blank) w
        → Language (tidy a) w ↔ Language a w }
{}

/// No expression describes the empty list of tokens.
pub fn nothing_describes_no_tokens()
    ensures { (a : Expression) → ¬ (IsDescribed a []) }
{}

/// A word that spells tokens has their letters in order, blanks aside.
pub fn a_spelling_has_the_letters()
    ensures { (w : List ℕ) (ts : List (List ℕ)) → Spells w ts
        → filter (λ c. not (c == blank)) w ≡ filter (λ c. not (c == blank)) (concat ts) }
{}

/// A blank at the beginning makes no difference.
pub fn a_blank_before_is_free()
    ensures { (w : List ℕ) (ts : List (List ℕ)) → Spells w ts ↔ Spells (blank ∷ w) ts }
{}

/// A blank at the end makes no difference.
pub fn a_blank_after_is_free()
    ensures { (w : List ℕ) (ts : List (List ℕ)) → Spells w ts ↔ Spells (w ++ blank ∷ []) ts }
{}

/// A token with no blank is written whole: its letters side by side, and no blanks but before and after them.
pub fn a_token_is_written_whole()
    ensures { (t w : List ℕ) → All (λ c. c ≢ blank) t
        → Spells w (t ∷ []) ↔ ((before past : ℕ) × (w ≡ blanks before ++ t ++ blanks past)) }
{}

/// Where two tokens with no blank meet in letters of words, a blank at least is written between them.
pub fn words_are_set_apart()
    ensures { (t u : List ℕ) (a b : ℕ) (w : List ℕ) → All (λ c. c ≢ blank) t
        → All (λ c. c ≢ blank) u → IsTrue (is_word a) → IsTrue (is_word b)
        → Spells w ((t ++ a ∷ []) ∷ (b ∷ u) ∷ [])
        ↔ ((before between past : ℕ) × (1 ≤ between)
        × (w ≡ blanks before ++ (t ++ a ∷ []) ++ blanks between ++ (b ∷ u) ++ blanks past)) }
{}

/// A blank within a token is a gap as between two tokens.
pub fn a_blank_within_a_token_is_a_gap()
    ensures { (t u w : List ℕ) (ts : List (List ℕ))
        → Spells w ((t ++ blank ∷ u) ∷ ts) ↔ Spells w (t ∷ u ∷ ts) }
{}

/// The words of an expression, read from the end, are those of the mirrored expression.
pub fn words_are_read_from_the_end()
    ensures { (e : Expression) (w : List ℕ) → Language (reversed_expression e) (reverse w) ↔ Language e w }
{}

/// What spells some tokens spells, read from the end, the tokens from the last to the first, each from its end.
pub fn spellings_are_read_from_the_end()
    ensures { (w : List ℕ) (ts : List (List ℕ)) → Spells (reverse w) (reversed_tokens ts) ↔ Spells w ts }
{}

/// What an expression describes is, read from the end, what the mirrored expression describes.
pub fn lists_are_read_from_the_end()
    ensures { (e : Expression) (ts : List (List ℕ))
        → IsDescribed (reversed_expression e) (reversed_tokens ts) ↔ IsDescribed e ts }
{}
