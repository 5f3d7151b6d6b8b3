//! The blanks at the edges of a text.

ghost use Rattle.std.specs.Prelude.{◌≡◌, ◌<◌, ◌++◌, false, length, IsTrue};
ghost use Rattle.lic_phrases.specs.Spelling.{blank_if};
ghost use Rattle.lic_phrases.specs.PieceTexts.{IsPieceText};
ghost use Rattle.lic_places.specs.Places.{IsAfterBlank, is_blank_at};
ghost use Rattle.lic_places.specs.Texts.{AreEdges};

/// Whether there are blanks at the edges of a text, and the letters between them.
#[derive(Clone, Copy, Debug)]
pub struct Edges<'t> {
    pub has_front: bool,
    pub letters: &'t [u8],
    pub has_end: bool,
}

/// The blanks at the edges of a text, and its letters.
pub fn edges_of(text: &str) -> Edges<'_>
    requires { IsPieceText text.now }
    ensures { AreEdges text.now result.has_front result.letters.now result.has_end }
{
    let (has_front, after) = without_front(text.as_bytes());
    let (has_end, letters) = without_end(after);
    Edges {
        has_front,
        letters,
        has_end,
    }
}

// Whether bytes begin with a blank, and those after it.
fn without_front(bytes: &[u8]) -> (bool, &[u8])
    ensures parts { bytes.now ≡ blank_if result.0 ++ result.1.now }
    ensures none { result.0 ≡ false → ¬ (IsTrue (is_blank_at bytes.now 0)) }
{
    if bytes.is_empty() || bytes[0] != b' ' {
        return (false, bytes);
    }
    (true, &bytes[1..])
}

// Whether bytes end with a blank, and those before it.
fn without_end(bytes: &[u8]) -> (bool, &[u8])
    ensures parts { bytes.now ≡ result.1.now ++ blank_if result.0 }
    ensures none { result.0 ≡ false → ¬ (IsAfterBlank bytes.now (length bytes.now)) }
{
    if bytes.is_empty() || bytes[bytes.len() - 1] != b' ' {
        return (false, bytes);
    }
    (true, &bytes[..bytes.len() - 1])
}
