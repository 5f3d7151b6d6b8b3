//! Laws of what is known of bytes, each the contract of a function that does nothing.
ghost use Rattle.std.specs.Prelude.{◌≡◌, ◌↔◌, ℕ, suc, ◌+◌, ◌≤◌, Bool, true, List, length, IsAscii, IsUtf8};
ghost use Rattle.std.specs.Str.{chars};
ghost use Rattle.lic_kind.specs.LineRules.{LineRules};
ghost use Rattle.lic_trim.specs.Lines.{cut_of, whole_line};
ghost use Rattle.lic_lines.specs.Cells.{cells_of, line_cells};
ghost use Rattle.lic_lines.specs.Streaks.{streaks_joined};
ghost use Rattle.lic_trim.specs.Sources.{placed};
ghost use Rattle.lic_lines.specs.Tokens.{first_tokens, tokens_after};
ghost use Rattle.lic_trim.specs.declared.cut.LineCut.{LineCut};
ghost use Rattle.lic_columns.specs.Edges.{byte_lines, edges_blanked, lines_blanked};
ghost use Rattle.lic_columns.specs.Known.{Known, IsText, known_of, blanked};
ghost use Rattle.lic_columns.specs.Marks.{is_same_as_next, same_as_next, middles, is_in_separator};
ghost use Rattle.lic_letters.specs.Simple.{AreSimple, TakeSpaces, all_in_place};
ghost use Rattle.lic_columns.specs.SpanTokens.{span_tokens};
ghost use Rattle.lic_columns.specs.Tokens.{text_spans};

/// What bytes say by themselves is known of all of them, and none is a word character and a mark; and so it is where bytes
/// of a range are taken away.
pub fn bytes_are_a_text()
    ensures read { (bytes : List ℕ) → IsText (length bytes) (known_of bytes) }
    ensures blanked { (from to n : ℕ) (known : Known) → IsText n known → IsText n (blanked from to known) }
{}

/// A mark is in a separator exactly if it is one of three same marks side by side.
pub fn separators_are_three_or_more()
    ensures { (bytes : List ℕ) (marks : List Bool) (k : ℕ)
        → (is_in_separator (middles (same_as_next bytes marks)) k ≡ true)
        ↔ ((j : ℕ) × (j ≤ k) × (k ≤ j + 2) × (is_same_as_next bytes marks j ≡ true)
        × (is_same_as_next bytes marks (suc j) ≡ true)) }
{}

/// The tokens of the spans of a text of ASCII of which nothing is taken away are the first tokens of its characters: the longest
/// streaks of word characters and each mark, once separators are blanks and quotes and dashes are joined.
pub fn spans_are_first_tokens()
    ensures { (rules : LineRules) (after_blank : Bool) (at : ℕ) (text : List ℕ) → IsAscii text
        → span_tokens after_blank at at (known_of text).letters (text_spans rules.separators at text (known_of text))
        ≡ tokens_after rules after_blank (placed at text) }
{}

/// The same of a text of simple characters, of which those beyond ASCII are spelled in place of their bytes.
pub fn spans_of_simple_texts_are_first_tokens()
    ensures { (rules : LineRules) (after_blank : Bool) (at : ℕ) (text : List ℕ) → IsUtf8 text → AreSimple (chars text)
        → span_tokens after_blank at at (known_of (all_in_place (chars text))).letters
        (text_spans rules.separators at text (known_of (all_in_place (chars text))))
        ≡ tokens_after rules after_blank (placed at (chars text)) }
{}

/// What the line rules take from a line of ASCII may as well be blanks, byte by byte: the tokens of the spans are then the first
/// tokens of the line.
pub fn edges_are_blanks()
    ensures { (rules : LineRules) (at : ℕ) (line : List ℕ) (cut : LineCut) → IsAscii line
        → cut ≡ cut_of rules whole_line line → cut.lead + cut.item + cut.tail ≤ length line
        → span_tokens true at at (known_of line).letters
        (text_spans rules.separators at line (edges_blanked cut 0 (length line) (known_of line)))
        ≡ first_tokens (streaks_joined rules (line_cells rules whole_line (placed at line))) }
{}

/// The same of a text of ASCII of any number of lines, of which the last may have no line feed.
pub fn edges_of_lines_are_blanks()
    ensures { (rules : LineRules) (at : ℕ) (text : List ℕ) → IsAscii text
        → span_tokens true at at (known_of text).letters
        (text_spans rules.separators at text (lines_blanked rules 0 (byte_lines text) (known_of text)))
        ≡ first_tokens (streaks_joined rules (cells_of rules (placed at text))) }
{}

/// The same of lines of simple characters of which nothing but white space is taken.
pub fn spans_of_simple_lines_are_first_tokens()
    ensures { (rules : LineRules) (at : ℕ) (text : List ℕ) → IsUtf8 text → AreSimple (chars text) → TakeSpaces rules (placed at (chars text))
        → span_tokens true at at (known_of (all_in_place (chars text))).letters
        (text_spans rules.separators at text (known_of (all_in_place (chars text))))
        ≡ first_tokens (streaks_joined rules (cells_of rules (placed at (chars text)))) }
{}
