//! Kinds of the first 256 characters, which are those of ASCII and Latin-1.
ghost use Rattle.std.specs.Prelude.{◌≡◌, ◌<◌};
ghost use Rattle.lic_kind.specs.Kinds.{kind_of};

use crate::Kind;
use crate::Kind::*;

// How many characters ASCII and Latin-1 have.
const LATIN: usize = 256;

/// The kinds of the first 256 characters.
static KINDS: [Kind; LATIN] = [
    Word, Word, Word, Word, Word, Word, Word, Word, Word, Blank, Blank, Blank, Blank, Blank, Word,
    Word, Word, Word, Word, Word, Word, Word, Word, Word, Word, Word, Word, Word, Word, Word, Word,
    Word, Blank, Mark, Mark, Mark, Mark, Mark, Mark, Mark, Mark, Mark, Mark, Mark, Mark, Mark,
    Mark, Mark, Word, Word, Word, Word, Word, Word, Word, Word, Word, Word, Mark, Mark, Mark, Mark,
    Mark, Mark, Mark, Word, Word, Word, Word, Word, Word, Word, Word, Word, Word, Word, Word, Word,
    Word, Word, Word, Word, Word, Word, Word, Word, Word, Word, Word, Word, Word, Mark, Mark, Mark,
    Mark, Mark, Mark, Word, Word, Word, Word, Word, Word, Word, Word, Word, Word, Word, Word, Word,
    Word, Word, Word, Word, Word, Word, Word, Word, Word, Word, Word, Word, Word, Mark, Mark, Mark,
    Mark, Word, Word, Word, Word, Word, Word, Blank, Word, Word, Word, Word, Word, Word, Word,
    Word, Word, Word, Word, Word, Word, Word, Word, Word, Word, Word, Word, Word, Word, Word, Word,
    Word, Word, Word, Blank, Mark, Word, Word, Word, Word, Word, Mark, Word, Mark, Word, Mark,
    Word, Dropped, Word, Word, Word, Word, Word, Word, Mark, Word, Mark, Mark, Word, Word, Word,
    Mark, Word, Word, Word, Mark, Word, Word, Word, Word, Word, Word, Word, Word, Word, Word, Word,
    Word, Word, Word, Word, Word, Word, Word, Word, Word, Word, Word, Word, Word, Word, Word, Word,
    Word, Word, Word, Word, Word, Word, Word, Word, Word, Word, Word, Word, Word, Word, Word, Word,
    Word, Word, Word, Word, Word, Word, Word, Word, Word, Word, Word, Word, Word, Word, Word, Word,
    Word, Word, Word, Word, Word,
];

/// The kind of one of the first 256 characters.
#[inline(always)]
pub(crate) fn latin_kind(c: char) -> Kind
    requires { c < 256 }
    ensures { result ≡ kind_of c }
{
    KINDS[c as usize]
}
