//! What is left of a pattern while it is read.
ghost use Rattle.std.specs.Prelude.{◌≡◌, ◌==◌, ◌+◌, ◌<◌, ◌^◌, ◌∷◌, IfSome, IfNone, IsTrue, length};
ghost use Rattle.std.specs.Str.{is_utf8};

/// The characters of a pattern from some byte on.
#[derive(Clone, Copy)]
pub struct Remaining<'a> {
    /// The byte of the pattern at which they begin.
    offset: usize,
    text: &'a str,
    ghost utf8: { IsTrue (is_utf8 text.now) },
    ghost fits: { offset + length text.now < 2 ^ 64 },
}

impl<'a> Remaining<'a> {
    ghost use Rattle.lic_ere.specs.Located.{located};
    ghost use Rattle.lic_ere.specs.Views.{left};

    /// All of a pattern.
    pub fn new(pattern: &'a str) -> Remaining<'a>
        ensures { left result ≡ located pattern.now }
    {
        Remaining {
            offset: 0,
            text: pattern,
        }
    }

    /// The first character with its offset, and those after it.
    pub fn split_first(self) -> Option<((usize, char), Remaining<'a>)>
        ensures some { IfSome result (λ x. left self.entry ≡ x.0 ∷ left x.1) }
        ensures none { IfNone result (length (left self.entry) ≡ 0) }
    {
        let mut chars = self.text.chars();
        let character = chars.next()?;
        let rest = Remaining {
            offset: self.offset + character.len_utf8(),
            text: chars.as_str(),
        };
        Some(((self.offset, character), rest))
    }

    /// Whether no character is left.
    pub fn is_empty(self) -> bool
        ensures { result ≡ (length (left self.entry) == 0) }
    {
        self.split_first().is_none()
    }
}
