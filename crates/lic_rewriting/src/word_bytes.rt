//! Which bytes of a text are of words.
ghost use Rattle.std.specs.Prelude.{◌≡◌};
ghost use Rattle.lic_columns.specs.Bytes.{is_word};

/// How many bytes there are.
const BYTES: usize = 256;

/// Whether each byte is a letter of words of ASCII, or beyond ASCII.
static WORDS: [bool; BYTES] = [
    true, true, true, true, true, true, true, true, true, false, false, false, false, false, true,
    true, true, true, true, true, true, true, true, true, true, true, true, true, true, true, true,
    true, false, false, false, false, false, false, false, false, false, false, false, false,
    false, false, false, false, true, true, true, true, true, true, true, true, true, true, false,
    false, false, false, false, false, false, true, true, true, true, true, true, true, true, true,
    true, true, true, true, true, true, true, true, true, true, true, true, true, true, true, true,
    true, false, false, false, false, false, false, true, true, true, true, true, true, true, true,
    true, true, true, true, true, true, true, true, true, true, true, true, true, true, true, true,
    true, true, false, false, false, false, true, true, true, true, true, true, true, true, true,
    true, true, true, true, true, true, true, true, true, true, true, true, true, true, true, true,
    true, true, true, true, true, true, true, true, true, true, true, true, true, true, true, true,
    true, true, true, true, true, true, true, true, true, true, true, true, true, true, true, true,
    true, true, true, true, true, true, true, true, true, true, true, true, true, true, true, true,
    true, true, true, true, true, true, true, true, true, true, true, true, true, true, true, true,
    true, true, true, true, true, true, true, true, true, true, true, true, true, true, true, true,
    true, true, true, true, true, true, true, true, true, true, true, true, true, true, true, true,
    true, true, true, true, true, true, true, true,
];

/// Whether a byte of a text is of a word: those beyond ASCII are.
#[inline(always)]
pub(crate) fn is_word_byte(byte: u8) -> bool
    ensures { result ≡ is_word byte }
{
    WORDS[byte as usize]
}
