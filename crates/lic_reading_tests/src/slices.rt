//! The tokens of a text as slices.

use crate::lists::no_words;
use lic_norm::{Span, Text};
use std::test::Fail;

#[test]
fn slices_have_the_tokens_of_their_text(rt: HostRuntime) -> Result<(), Fail> {
    let lists = no_words(rt.alloc());
    let source = b"a  b.c".to_vec(rt.alloc())?;
    let text = Text::read(rt.alloc(), source, &lists.words, &lists.rules)?;
    let tokens = text.slices().expect(&rt, "slices");
    assert_eq!(rt; tokens.spelled(), b"a b.c".as_slice());
    assert!(rt; tokens.len() == 4);
    assert_eq!(rt; tokens.place(1), Span { start: 2, end: 3 });
    assert_eq!(rt; tokens.span(1), Span { start: 3, end: 4 });
    Ok(())
}
