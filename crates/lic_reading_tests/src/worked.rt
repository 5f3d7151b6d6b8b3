//! Worked texts: joined marks, separators, comment marks and items, over borders of columns of 64 bytes too.

use crate::lists::{Lists, no_words};
use crate::shown::{assert_same, shown_whole};
use std::alloc::{AllocError, Global};
use std::process::Abort;
use std::test::Fail;

/// How many blanks a text begins with, what follows, and its tokens by the profile.
const WORKED: &[(usize, &str, &str)] = &[
    (0, "", ""),
    (0, "ab c\n", "ab 0-2, c 3-4, "),
    (0, "a.B", "a 0-1, . 1-2, b 2-3, "),
    (0, "caf\u{E9}s", "caf\u{E9}s 0-6, "),
    (0, "a---b", "a 0-1, b 4-5, "),
    (0, "\"'`x", "' 0-3, x 3-4, "),
    (0, "x\"\"\"'y", "x 0-1, ' 4-5, y 5-6, "),
    (0, "a-'b", "a 0-1, - 1-2, ' 2-3, b 3-4, "),
    (0, "a == ===b", "a 0-1, = 2-3, = 3-4, b 8-9, "),
    (62, "abc  --d", "abc 62-65, - 67-69, d 69-70, "),
    (61, "a---x", "a 61-62, x 65-66, "),
    (61, "a----b", "a 61-62, b 66-67, "),
    (62, "a\"'b", "a 62-63, ' 63-65, b 65-66, "),
    (62, "a+++b", "a 62-63, b 66-67, "),
    (126, "x y z", "x 126-127, y 128-129, z 130-131, "),
    (0, "\n\n", ""),
    (0, "// a\n// B", "a 3-4, b 8-9, "),
    (0, "/* one\n * two\n */\n", "one 3-6, two 10-13, "),
    (0, "1. Foo\n2. bar ***/\n", "foo 3-6, bar 10-13, "),
    (0, "a-\n-b", "a 0-1, - 1-2, - 3-4, b 4-5, "),
    (0, "a--\n--b", "a 0-1, - 1-3, b 6-7, "),
    (0, "x ===\n===\ny */", "x 0-1, y 10-11, "),
    (
        0,
        "(c) 1. a\n(c) b\n",
        "copyright 0-3, 1 4-5, . 5-6, a 7-8, b 13-14, ",
    ),
    (0, "\"It`s\"\n", "' 0-1, it 1-3, ' 3-4, s 4-5, ' 5-6, "),
    (60, "// \"\"x\n", "' 63-65, x 65-66, "),
    (62, "a b */\n", "a 62-63, b 64-65, "),
    (57, "* 1 **/\n* 2\n", "1 59-60, 2 67-68, "),
    (62, "\u{E9} b */\n", "\u{E9} 62-64, b 65-66, "),
    (57, "* \u{436} **/\n* 2\n", "\u{436} 59-61, 2 68-69, "),
];

/// A text after this number of blanks.
fn after_blanks(alloc: Global, blanks: usize, text: &str) -> Result<Vec<u8>, AllocError> {
    let mut input = vec![in alloc; b' '; blanks]?;
    input.extend_from_slice(text.as_bytes())?;
    Ok(input)
}

/// Reads a text after this number of blanks.
fn try_worked(
    rt: &impl Abort,
    alloc: Global,
    blanks: usize,
    text: &str,
    wanted: &str,
    lists: &Lists,
) -> Result<(), AllocError> {
    let input = after_blanks(alloc, blanks, text)?;
    let found = shown_whole(alloc, &input, lists)?;
    assert_same(rt, found.as_str(), wanted, text.as_bytes(), blanks);
    Ok(())
}

#[test]
fn worked_texts_have_these_tokens(rt: HostRuntime) -> Result<(), Fail> {
    let lists = no_words(rt.alloc());
    for (blanks, text, wanted) in WORKED {
        try_worked(&rt, rt.alloc(), *blanks, text, wanted, &lists)?;
    }
    Ok(())
}
