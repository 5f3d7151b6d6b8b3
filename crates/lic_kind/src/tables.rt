//! The tables of dropped characters and of marks, as tests on a character.

ghost use Rattle.std.specs.Prelude.{◌≡◌};
ghost use Rattle.lic_kind.specs.Kinds.{
  is_dropped,
  is_dash,
  is_quote,
  is_bullet,
  is_box_drawing,
  is_other_mark,
  is_mark,
};

/// Whether the character is a soft hyphen, a zero width space or a byte order mark.
pub fn is_dropped(c: char) -> bool
    ensures { result ≡ is_dropped c }
{
    matches!(c, '\u{AD}' | '\u{200B}' | '\u{FEFF}')
}

/// Whether the character is a hyphen, a dash or a minus sign. Its letter is `-`.
#[tactic(auto, unfolding(crate::specs::Kinds::is_dash))]
pub fn is_dash(c: char) -> bool
    ensures { result ≡ is_dash c }
{
    matches!(
        c,
        '-' | '\u{2010}'..='\u{2015}' | '\u{2212}' | '\u{FE58}' | '\u{FE63}' | '\u{FF0D}'
    )
}

/// Whether the character is a quotation mark, an apostrophe or an accent that is used as one.
/// Its letter is `'`.
#[tactic(auto, unfolding(crate::specs::Kinds::is_quote))]
pub fn is_quote(c: char) -> bool
    ensures { result ≡ is_quote c }
{
    matches!(
        c,
        '"' | '\'' | '`' | '\u{B4}' | '\u{AB}' | '\u{BB}' | '\u{2018}'..='\u{201F}'
            | '\u{2039}'
            | '\u{203A}'
    )
}

/// Whether the character is a bullet of a list.
#[tactic(auto, unfolding(crate::specs::Kinds::is_bullet))]
pub fn is_bullet(c: char) -> bool
    ensures { result ≡ is_bullet c }
{
    matches!(
        c,
        '\u{B7}'
            | '\u{2022}'
            | '\u{2023}'
            | '\u{2043}'
            | '\u{25AA}'
            | '\u{25AB}'
            | '\u{25CB}'
            | '\u{25CF}'
            | '\u{25E6}'
    )
}

#[tactic(auto, unfolding(crate::specs::Kinds::is_box_drawing))]
fn is_box_drawing(c: char) -> bool
    ensures { result ≡ is_box_drawing c }
{
    matches!(c, '\u{2500}'..='\u{257F}')
}

#[tactic(auto, unfolding(crate::specs::Kinds::is_other_mark))]
fn is_other_mark(c: char) -> bool
    ensures { result ≡ is_other_mark c }
{
    matches!(
        c,
        '\u{A1}' | '\u{A7}' | '\u{A9}' | '\u{B6}' | '\u{BF}' | '\u{2020}' | '\u{2021}' | '\u{2026}'
    )
}

pub(crate) fn is_mark(c: char) -> bool
    ensures { result ≡ is_mark c }
{
    c.is_ascii_punctuation()
        || is_dash(c)
        || is_quote(c)
        || is_bullet(c)
        || is_box_drawing(c)
        || is_other_mark(c)
}
