//! Texts that are drawn from fragments by a generator.

use std::alloc::{AllocError, Global};

/// The next state of a generator (Knuth's linear congruential one).
pub fn next_state(state: u64) -> u64 {
    state
        .wrapping_mul(6364136223846793005)
        .wrapping_add(1442695040888963407)
}

/// A number below `count` that is drawn by a state.
pub fn drawn_below(state: u64, count: usize) -> usize {
    ((state >> 33) as usize).checked_rem(count).unwrap_or(0)
}

/// One of these fragments that is drawn by a state.
fn drawn_fragment<'f>(fragments: &[&'f [u8]], state: u64) -> &'f [u8] {
    match fragments.get(drawn_below(state, fragments.len())) {
        Some(fragment) => fragment,
        None => b"",
    }
}

/// Adds `count` of these fragments to a text, and gives the state that follows.
fn add_drawn(
    text: &mut Vec<u8>,
    fragments: &[&[u8]],
    mut state: u64,
    count: usize,
) -> Result<u64, AllocError> {
    for _ in 0..count {
        state = next_state(state);
        text.extend_from_slice(drawn_fragment(fragments, state))?;
    }
    Ok(state)
}

/// A text of `count` of these fragments, and the state that follows.
pub fn drawn_text(
    alloc: Global,
    fragments: &[&[u8]],
    state: u64,
    count: usize,
) -> Result<(Vec<u8>, u64), AllocError> {
    let mut text = Vec::new(alloc);
    let next = add_drawn(&mut text, fragments, state, count)?;
    Ok((text, next))
}
