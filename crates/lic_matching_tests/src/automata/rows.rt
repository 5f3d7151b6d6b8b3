//! Rows of bits against the same bit by bit.

use lic_rows::{and_into, any_from, is_zero, or_into, shift_up_one};
use std::alloc::{AllocError, Global};
use std::process::Abort;
use std::test::Fail;

/// The greatest number of words that is tried: up to five blocks of four, with each remainder in between.
const MAX_WORDS: usize = 20;

/// The bit number `b`, by itself.
fn bit(row: &[u64], b: usize) -> bool {
    match row.get(b / 64) {
        Some(word) => (*word >> (b % 64)) & 1 == 1,
        None => false,
    }
}

/// A row of words, each with about half of its bits set; another seed gives another row.
fn mixed(alloc: Global, words: usize, seed: u64) -> Result<Vec<u64>, AllocError> {
    let mut row = Vec::new(alloc);
    let mut state = seed;
    for _ in 0..words {
        state = state
            .wrapping_mul(6_364_136_223_846_793_005)
            .wrapping_add(1_442_695_040_888_963_407);
        row.push(state ^ (state >> 29))?;
    }
    Ok(row)
}

/// A row of words with the bit `b` alone.
fn single(alloc: Global, words: usize, b: usize) -> Result<Vec<u64>, AllocError> {
    let mut row = vec![in alloc; 0; words]?;
    if b / 64 < row.len() {
        row[b / 64] = 1 << (b % 64);
    }
    Ok(row)
}

/// The bits of two rows that are in either.
fn either(alloc: Global, words: usize) -> Result<Vec<u64>, AllocError> {
    let mut row = mixed(alloc, words, 1)?;
    let other = mixed(alloc, words, 2)?;
    if row.len() == other.len() {
        or_into(&mut row, &other);
    }
    Ok(row)
}

/// The bits of the same rows that are in both.
fn both(alloc: Global, words: usize) -> Result<Vec<u64>, AllocError> {
    let mut row = mixed(alloc, words, 1)?;
    let other = mixed(alloc, words, 2)?;
    if row.len() == other.len() {
        and_into(&mut row, &other);
    }
    Ok(row)
}

/// At how many bits, those after the rows included, the bits in either row are others than bit by bit.
fn count_wrong_either(either: &[u64], one: &[u64], two: &[u64]) -> usize {
    let mut wrong = 0usize;
    for b in 0..64 * MAX_WORDS + 64 {
        let is_wrong = bit(either, b) != (bit(one, b) | bit(two, b));
        wrong = wrong.saturating_add(usize::from(is_wrong));
    }
    wrong
}

/// At how many bits, those after the rows included, the bits in both rows are others than bit by bit.
fn count_wrong_both(both: &[u64], one: &[u64], two: &[u64]) -> usize {
    let mut wrong = 0usize;
    for b in 0..64 * MAX_WORDS + 64 {
        let is_wrong = bit(both, b) != (bit(one, b) & bit(two, b));
        wrong = wrong.saturating_add(usize::from(is_wrong));
    }
    wrong
}

/// At how many bits either kernel of two rows differs from the answer bit by bit.
fn wrong_bits(alloc: Global, words: usize) -> Result<usize, AllocError> {
    let one = mixed(alloc, words, 1)?;
    let two = mixed(alloc, words, 2)?;
    let in_either = count_wrong_either(&either(alloc, words)?, &one, &two);
    let in_both = count_wrong_both(&both(alloc, words)?, &one, &two);
    Ok(in_either.saturating_add(in_both))
}

/// A row that is shifted below a limit, if it reaches that far.
fn shifted(alloc: Global, words: usize, limit: usize) -> Result<Option<Vec<u64>>, AllocError> {
    let mut row = mixed(alloc, words, 3)?;
    let fits = limit / 64 < row.len() || (limit / 64 == row.len() && limit % 64 == 0);
    if !fits {
        return Ok(None);
    }
    shift_up_one(&mut row, limit);
    Ok(Some(row))
}

/// At how many bits a row is another than this one shifted below a limit bit by bit.
fn count_wrong_shifts(row: &[u64], before: &[u64], limit: usize) -> usize {
    let mut wrong = 0usize;
    for b in 0..64 * MAX_WORDS + 64 {
        let expected = b > 0 && b < limit && bit(before, b - 1);
        wrong = wrong.saturating_add(usize::from(bit(row, b) != expected));
    }
    wrong
}

/// At how many bits a shift below a limit is another than bit by bit; none where the row ends before the limit.
fn wrong_shifts(alloc: Global, words: usize, limit: usize) -> Result<usize, AllocError> {
    let before = mixed(alloc, words, 3)?;
    match shifted(alloc, words, limit)? {
        Some(row) => Ok(count_wrong_shifts(&row, &before, limit)),
        None => Ok(0),
    }
}

/// Whether a row with one bit, or with none if the bit is after its end, is seen to be so from each side of the bit.
fn is_seen(row: &[u64], b: usize) -> bool {
    let is_there = b / 64 < row.len();
    let is_before = (any_from(row, 0) == is_there) & (any_from(row, b) == is_there);
    let is_after = any_from(row, b.saturating_add(1)) | any_from(row, b.saturating_add(64));
    (is_zero(row) != is_there) & is_before & !is_after
}

/// Shifts a row of `words` words below a limit.
fn try_shift(rt: &impl Abort, alloc: Global, words: usize, limit: usize) -> Result<(), AllocError> {
    assert_eq!(rt;
        wrong_shifts(alloc, words, limit)?,
        0,
        "{words} words, {limit}"
    );
    Ok(())
}

/// Looks at a row of `words` words, of which one bit is set.
fn try_bit(rt: &impl Abort, alloc: Global, words: usize, b: usize) -> Result<(), AllocError> {
    let row = single(alloc, words, b)?;
    assert!(rt; is_seen(&row, b), "bit {b} of {words} words");
    Ok(())
}

const LIMITS: &[usize] = &[0, 1, 63, 64, 65, 127, 128, 192, 641, 1280];

fn try_shifts(rt: &impl Abort, alloc: Global, words: usize) -> Result<(), AllocError> {
    for limit in LIMITS {
        try_shift(rt, alloc, words, *limit)?;
    }
    Ok(())
}

/// Looks at rows of one bit, one after the last word too.
fn try_bits(rt: &impl Abort, alloc: Global, words: usize) -> Result<(), AllocError> {
    for b in 0..words.saturating_mul(64).saturating_add(1) {
        try_bit(rt, alloc, words, b)?;
    }
    Ok(())
}

#[test]
fn kernels_are_bit_by_bit(rt: HostRuntime) -> Result<(), Fail> {
    for words in 0..MAX_WORDS + 1 {
        assert_eq!(rt; wrong_bits(rt.alloc(), words)?, 0, "{words} words");
        try_shifts(&rt, rt.alloc(), words)?;
        try_bits(&rt, rt.alloc(), words)?;
    }
    Ok(())
}
