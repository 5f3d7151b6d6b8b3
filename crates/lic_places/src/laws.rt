//! Laws of places, each the contract of a function that does nothing.

ghost use Rattle.std.specs.Prelude.{◌≡◌, ◌≤◌, ◌<◌, ◌+◌, ◌*◌, ◌↔◌, ◌⊎◌, ◌++◌, ℕ, suc, List, [], true, false, length, map, IsTrue, slice_range, slice_index_or};
ghost use Rattle.std.specs.Str.{IsUtf8, chars};
ghost use Rattle.lic_words.specs.Words.{Word};
ghost use Rattle.lic_words.specs.Spelling.{Spells};
ghost use Rattle.lic_tokens.specs.Tokens.{TokenValue};
ghost use Rattle.lic_tokens.specs.Places.{place_end, place_start, texts_of};
ghost use Rattle.lic_phrases.specs.PieceTexts.{IsPieceText};
ghost use Rattle.lic_places.specs.Places.{AreTexts, IsAfterBlank, OverBlank, Occurs, is_blank_at, spelling_of};
ghost use Rattle.lic_places.specs.Reads.{Reads, ReadsTokens};

/// A word that spells tokens spells, in the canonical spelling of all tokens, what is there from the first of them to the last.
pub fn a_spelling_is_read_from_token_to_token()
    ensures { (tokens : List TokenValue) (first last : ℕ) (w : Word)
        → AreTexts tokens → first ≤ last → last < length tokens
        → Spells w (map (λ t. chars t.text) (slice_range tokens first (last + 1)))
        ↔ ReadsTokens tokens first w last }
{}

/// Words one after another spell what is from place to place.
pub fn joined_words_are_read_one_after_another()
    ensures { (tokens : List TokenValue) (u v : Word) (p q : ℕ)
        → Reads tokens p (u ++ v) q ↔ ((r : ℕ) × Reads tokens p u r × Reads tokens r v q) }
{}

/// The letters of a text with no blank at its edges are read exactly where its bytes are.
pub fn a_text_is_read_where_its_bytes_occur()
    ensures { (tokens : List TokenValue) (text : List ℕ) (p q : ℕ)
        → AreTexts tokens → IsUtf8 text → IsPieceText text → 0 < length text
        → ¬ IsTrue (is_blank_at text 0) → ¬ IsAfterBlank text (length text)
        → Reads tokens p (chars text) q ↔ Occurs (spelling_of tokens) p text q }
{}

/// What a word spells ends no earlier than it begins, and each letter takes four bytes at most.
pub fn a_word_is_read_forward()
    ensures order { (tokens : List TokenValue) (w : Word) (p q : ℕ) → Reads tokens p w q → p ≤ q }
    ensures most { (tokens : List TokenValue) (w : Word) (p q : ℕ) → Reads tokens p w q
        → q ≤ p + 4 * length w }
{}

/// A blank leads back from a place to one place at most, and a second one leads nowhere else.
pub fn a_blank_leads_one_way()
    ensures one { (tokens : List TokenValue) (p r q : ℕ)
        → OverBlank tokens p q → OverBlank tokens r q → p ≡ r }
    ensures twice { (tokens : List TokenValue) (p r q : ℕ) → AreTexts tokens
        → OverBlank tokens r q → OverBlank tokens p r → p ≡ r }
    ensures order { (tokens : List TokenValue) (p q : ℕ) → OverBlank tokens p q → p ≤ q }
{}

/// The texts of tokens follow one another in the canonical spelling, with a blank between two of them or none.
pub fn tokens_follow_one_another()
    ensures first { (tokens : List TokenValue) → 0 < length tokens → place_start tokens 0 ≡ 0 }
    ensures next { (tokens : List TokenValue) (i : ℕ) → AreTexts tokens → suc i < length tokens
        → (place_start tokens (suc i) ≡ place_end tokens i)
        ⊎ ((place_start tokens (suc i) ≡ suc (place_end tokens i))
        × IsTrue (is_blank_at (spelling_of tokens) (place_end tokens i))) }
    ensures order { (tokens : List TokenValue) (i : ℕ) → AreTexts tokens → i < length tokens
        → place_start tokens i < place_end tokens i }
    ensures text { (tokens : List TokenValue) (i : ℕ) → i < length tokens
        → Occurs (spelling_of tokens) (place_start tokens i)
        (slice_index_or (texts_of tokens) i []) (place_end tokens i) }
    ensures last { (tokens : List TokenValue) (i : ℕ) → suc i ≡ length tokens
        → place_end tokens i ≡ length (spelling_of tokens) }
{}

/// No token begins with a blank or ends with one.
pub fn tokens_have_no_blank_at_their_edges()
    ensures start { (tokens : List TokenValue) (i : ℕ) → AreTexts tokens → i < length tokens
        → is_blank_at (spelling_of tokens) (place_start tokens i) ≡ false }
    ensures end { (tokens : List TokenValue) (i : ℕ) → AreTexts tokens → i < length tokens
        → ¬ IsAfterBlank (spelling_of tokens) (place_end tokens i) }
{}

/// A canonical spelling is in UTF-8, and no two blanks are together in it.
pub fn spellings_are_in_utf8()
    ensures utf8 { (tokens : List TokenValue) → AreTexts tokens → IsUtf8 (spelling_of tokens) }
    ensures blanks { (tokens : List TokenValue) (p : ℕ) → AreTexts tokens
        → IsTrue (is_blank_at (spelling_of tokens) p)
        → is_blank_at (spelling_of tokens) (suc p) ≡ false }
{}
