//! Laws of the words of a template's parts, each the contract of a function that does nothing.
ghost use Rattle.std.specs.Prelude.{◌≡◌, ◌↔◌, ◌++◌, ◌∷◌, ◌⊎◌, [], ◌==◌, ℕ, Bool, true, false, not};
ghost use Rattle.std.specs.Prelude.{List, Vec, String, Ok, Err, All, chars, map};
ghost use Rattle.std.specs.Global.{Global};
ghost use Rattle.std.specs.List.{concat, filter, list_any};
ghost use Rattle.std.specs.Str.{IsUtf8};
ghost use Rattle.std.specs.String.{string_bytes};
ghost use Rattle.lic_ere.specs.Located.{Located, located};
ghost use Rattle.lic_kind.specs.LineRules.{LineRules};
ghost use Rattle.lic_phrases.specs.Rewriting.{Phrase};
ghost use Rattle.lic_phrases.specs.TokenTexts.{HaveTokenTexts, IsTokenText};
ghost use Rattle.lic_pieces.specs.Pieces.{piece_of};
ghost use Rattle.lic_norm.specs.Tokens.{tokens_of};
ghost use Rattle.lic_pieces.specs.declared.pieces.Next.{Next};
ghost use Rattle.lic_pieces.specs.declared.pieces.Next.TheVariants.{LineEnd};
ghost use Rattle.lic_words.specs.Describing.{IsDescribed};
ghost use Rattle.lic_words.specs.Expressions.{Language};
ghost use Rattle.lic_words.specs.Words.{Cat, blank};
ghost use Rattle.lic_markup.specs.declared.part.Part.{Part};
ghost use Rattle.lic_markup.specs.declared.part.Part.TheVariants.{Text, Optional};
ghost use Rattle.lic_elements.specs.Signs.{less};
ghost use Rattle.lic_elements.specs.declared.fault.MarkupFault.{MarkupFault};
ghost use Rattle.lic_elements.specs.Elements.{Element};
ghost use Rattle.lic_markup.specs.FirstFaults.{IsFaultOf};
ghost use Rattle.lic_markup.specs.Parts.{Reading, letters, part_of};
ghost use Rattle.lic_markup.specs.Reading.{reading};
ghost use Rattle.lic_elements.specs.Cut.{AreElements};
ghost use Rattle.lic_markup.specs.Templates.{IsTemplate, original_of};
ghost use Rattle.lic_markup.specs.Meaning.{parts_words, part_words, piece_texts};

pub use crate::part::{templates_give_a_token, templates_weigh_little, texts_are_those_of_pieces};
pub use lic_elements::laws::{
    white_space_is_taken_off_the_end, white_space_is_taken_off_the_start,
};

/// A word of parts in a row is a word of the first of them and then one of the others.
pub fn parts_in_a_row_denote_both()
    ensures { (xs ys : List Part) (w : List ℕ)
        → Language (parts_words (map part_of (xs ++ ys))) w
        ↔ Cat (Language (parts_words (map part_of xs)))
        (Language (parts_words (map part_of ys))) w }
{}

/// An optional part of nothing but an optional part has the words of that part.
pub fn optional_twice_is_optional()
    ensures { (once twice : Vec Part Global) (w : List ℕ) → twice.items ≡ Optional once ∷ []
        → Language (part_words (Optional twice)) w ↔ Language (part_words (Optional once)) w }
{}

/// A text describes only tokens that have its letters in order, blanks aside.
pub fn a_text_describes_its_letters_alone()
    ensures { (text : String Global) (ts : List (List ℕ)) → IsDescribed (part_words (Text text)) ts
        → filter (λ c. not (c == blank)) (chars (string_bytes text))
        ≡ filter (λ c. not (c == blank)) (concat ts) }
{}

/// A text with the letters of a piece describes the tokens that are read from the piece, with the same
/// facts of its lines, the same line rules and the same words, where these have the texts of tokens, in UTF-8.
pub fn a_text_describes_the_tokens_of_its_piece()
    ensures { (rules : LineRules) (words : List Phrase) (at_line_start : Bool) (before : Next)
        (piece : List ℕ)
        → (text : String Global)
        → string_bytes text ≡ piece_of rules words at_line_start before piece
        → ¬ (piece_texts rules words at_line_start before piece ≡ [])
        → All IsUtf8 (piece_texts rules words at_line_start before piece)
        → All IsTokenText (piece_texts rules words at_line_start before piece)
        → IsDescribed (part_words (Text text))
        (map chars (piece_texts rules words at_line_start before piece)) }
{}

/// A text with the letters of a source in UTF-8, taken as whole lines, describes the tokens of that source.
pub fn a_text_describes_its_source()
    ensures { (rules : LineRules) (words : List Phrase) (source : List ℕ) (text : String Global)
        → HaveTokenTexts words → IsUtf8 source
        → string_bytes text ≡ piece_of rules words true LineEnd source
        → ¬ (tokens_of rules words source ≡ [])
        → All IsUtf8 (map (λ t. t.text) (tokens_of rules words source))
        → IsDescribed (part_words (Text text))
        (map (λ t. chars t.text) (tokens_of rules words source)) }
{}

/// An accepted template without a `<` is one text, which has the letters of the whole template as a piece.
pub fn a_template_without_rules_is_one_text()
    ensures { (rules : LineRules) (words : List Phrase) (template : List ℕ) (read : Reading)
        → IsUtf8 template → list_any (λ c. c == less) (chars template) ≡ false
        → reading rules words template ≡ Ok read
        → read.parts ≡ letters (piece_of rules words true LineEnd template) ∷ [] }
{}

/// The fault that a template is refused by is the one that decides: that it is too long; else the first rule at fault, by what is
/// met first in it from the left; else, after the last rule, that a part is open, that no piece gives a token, that the template
/// is too heavy.
pub fn a_template_is_refused_by_the_fault_that_decides()
    ensures { (rules : LineRules) (words : List Phrase) (template : List ℕ) (e : MarkupFault)
        → reading rules words template ≡ Err e → IsFaultOf rules words template e }
{}

/// A text says one thing at most as a template of the markup.
pub fn a_template_says_one_thing()
    ensures { (rules : LineRules) (words : List Phrase) (template : List ℕ) (one other : Reading)
        → IsTemplate rules words template one → IsTemplate rules words template other
        → one ≡ other }
{}

/// A text says something as a template of the markup, or one fault decides of it, and never both.
pub fn a_template_says_something_or_is_at_fault()
    ensures either { (rules : LineRules) (words : List Phrase) (template : List ℕ)
        → ((says : Reading) × IsTemplate rules words template says)
        ⊎ ((e : MarkupFault) × IsFaultOf rules words template e) }
    ensures never_both { (rules : LineRules) (words : List Phrase) (template : List ℕ)
        (says : Reading) (e : MarkupFault)
        → IsTemplate rules words template says → ¬ (IsFaultOf rules words template e) }
    ensures one_fault { (rules : LineRules) (words : List Phrase) (template : List ℕ)
        (one other : MarkupFault)
        → IsFaultOf rules words template one → IsFaultOf rules words template other
        → one ≡ other }
{}

/// The original text of an accepted template is its text with the optional rules taken out and each variable replaced by its
/// original value.
pub fn the_original_text_is_the_text_without_its_rules()
    ensures { (rules : LineRules) (words : List Phrase) (template : List ℕ) (read : Reading)
        → reading rules words template ≡ Ok read
        → (elements : List Element) × AreElements (located template) elements
        × (read.original ≡ original_of elements) }
{}
