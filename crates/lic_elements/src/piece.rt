//! Characters of a template in a row.
ghost use Rattle.std.specs.Prelude.{◌≡◌, ◌+◌, ◌<◌, ◌^◌, IsTrue, length};
ghost use Rattle.std.specs.Str.{is_utf8};

/// Characters of a template in a row: a slice of its text.
#[derive(Clone, Copy)]
pub struct Piece<'t> {
    /// The byte of the template at which they begin.
    pub offset: usize,
    pub text: &'t str,
    ghost utf8: { IsTrue (is_utf8 text.now) },
    ghost fits: { offset + length text.now < 2 ^ 64 },
}

impl<'t> Piece<'t> {
    ghost use Rattle.std.specs.Prelude.{◌∷◌, ◌++◌, [], drop, IfSome, IfNone};
    ghost use Rattle.lic_ere.specs.Located.{located};
    ghost use Rattle.lic_elements.specs.Pieces.{characters, EndsWith};
    ghost use Rattle.lic_elements.specs.Texts.{text_of};

    /// All of a template.
    pub(crate) fn new(template: &'t str) -> Piece<'t>
        ensures { characters result ≡ located template.now }
    {
        Piece {
            offset: 0,
            text: template,
        }
    }

    /// The text that the characters write.
    pub fn as_str(self) -> &'t str
        ensures { result.now ≡ text_of (characters self.entry) }
    {
        self.text
    }

    /// The first character with its offset, and those after it.
    pub fn split_first(self) -> Option<((usize, char), Piece<'t>)>
        ensures some { IfSome result (λ x. characters self.entry ≡ x.0 ∷ characters x.1) }
        ensures end { IfSome result (λ x. EndsWith self.entry x.1) }
        ensures none { IfNone result (length (characters self.entry) ≡ 0) }
    {
        let mut chars = self.text.chars();
        let character = chars.next()?;
        let rest = Piece {
            offset: self.offset + character.len_utf8(),
            text: chars.as_str(),
        };
        Some(((self.offset, character), rest))
    }

    /// The last character with its offset, and those before it.
    pub fn split_last(self) -> Option<((usize, char), Piece<'t>)>
        ensures some { IfSome result (λ x. characters self.entry ≡ characters x.1 ++ x.0 ∷ []) }
        ensures none { IfNone result (length (characters self.entry) ≡ 0) }
    {
        let mut chars = self.text.chars();
        let character = chars.next_back()?;
        let before = Piece {
            offset: self.offset,
            text: chars.as_str(),
        };
        Some(((self.offset + before.text.len(), character), before))
    }

    /// Without the first character.
    pub(crate) fn without_first(self) -> Piece<'t>
        ensures { characters result ≡ drop 1 (characters self.entry) }
    {
        match self.split_first() {
            Some((_, rest)) => rest,
            None => self,
        }
    }

    /// The characters before some that these end with.
    pub(crate) fn up_to(self, rest: Piece<'_>) -> Piece<'t>
        requires { EndsWith self rest }
        ensures { characters result ++ characters rest.entry ≡ characters self.entry }
    {
        let end = self.text.len() - rest.text.len();
        Piece {
            offset: self.offset,
            text: &self.text[..end],
        }
    }
}
