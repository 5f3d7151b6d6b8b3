//! Compiled patterns: what the tree of each is and weighs, and what a run of it says of tokens.

use lic_auto::compile_pattern;
use lic_marks::{AnchoredMatcher, Node};
use std::alloc::Global;
use std::process::Abort;
use std::test::Fail;

/// The tree of a pattern.
fn tree_of(alloc: Global, pattern: &str) -> Result<Node, Fail> {
    let ere = lic_ere::read(alloc, pattern)?;
    Ok(compile_pattern(alloc, &ere)?)
}

/// What it weighs.
fn weight_of(alloc: Global, pattern: &str) -> Result<usize, Fail> {
    let ere = lic_ere::read(alloc, pattern)?;
    let tree = compile_pattern(alloc, &ere)?;
    Ok(tree.weight())
}

/// Whether a pattern has no tree, since it would weigh more than a number can be.
fn is_too_heavy(alloc: Global, pattern: &str) -> bool {
    match lic_ere::read(alloc, pattern) {
        Ok(ere) => compile_pattern(alloc, &ere).is_err(),
        Err(_) => false,
    }
}

/// Patterns and their weights.
const WEIGHTS: &[(&str, usize)] = &[
    ("(((){65535}){65535}){65535}", 0),
    ("((((a{65535}){65535}){65535}){65535}){0}b", 1),
    ("a(()()()(){3}()*){65535}b", 2),
    ("((()|()*){9}|a){2,3}b", 4),
    ("(a|b)*c", 3),
    ("(ab)+", 2),
    ("(ab){2,}", 4),
    ("(ab){1,2}", 4),
    ("(a|b){3}", 6),
    ("(a|b){0,3}c", 7),
    ("(ab){2,4}", 8),
    ("(ab){3,}", 6),
    ("(ab){3,}c", 7),
    ("(a|bc){2,3}", 9),
    ("(a|){5}", 5),
    ("((a|b){2}c){3}", 15),
    ("((a|bc){1,2}d){2,}", 14),
    ("[a-c]{2}.?", 3),
    ("(a{2}|b?){1,2}", 6),
    (".{0,5000}", 5000),
    ("[^a]{3,}", 3),
];

fn try_weight(rt: &impl Abort, alloc: Global, pattern: &str, weight: usize) -> Result<(), Fail> {
    let found = weight_of(alloc, pattern)?;
    assert_eq!(rt; found, weight, "{pattern}");
    Ok(())
}

#[test]
fn trees_have_their_weights(rt: HostRuntime) -> Result<(), Fail> {
    for (pattern, weight) in WEIGHTS {
        try_weight(&rt, rt.alloc(), pattern, *weight)?;
    }
    // more than the greatest number there is
    assert!(rt; is_too_heavy(rt.alloc(), "((((a{65535}){65535}){65535}){65535}){2}"));
    Ok(())
}

/// Whether at most this many letters of a pattern are one node.
fn is_up_to(alloc: Global, pattern: &str, most: usize) -> Result<bool, Fail> {
    let tree = tree_of(alloc, pattern)?;
    Ok(matches!(&tree, Node::UpTo { count, .. } if *count == most))
}

/// Whether this many letters of a pattern are one node.
fn are_copies(alloc: Global, pattern: &str, copies: usize) -> Result<bool, Fail> {
    let tree = tree_of(alloc, pattern)?;
    Ok(matches!(&tree, Node::Copies { count, .. } if *count == copies))
}

#[test]
fn a_counted_letter_is_one_node(rt: HostRuntime) -> Result<(), Fail> {
    assert!(rt; is_up_to(rt.alloc(), ".{0,5000}", 5000)?);
    assert!(rt; are_copies(rt.alloc(), "[ab]{9}", 9)?);
    Ok(())
}

/// Whether a pattern is a repetition of this weight.
fn is_repeat(alloc: Global, pattern: &str, wanted: usize) -> Result<bool, Fail> {
    let tree = tree_of(alloc, pattern)?;
    Ok(matches!(&tree, Node::Repeat { weight, .. } if *weight == wanted))
}

/// Whether a pattern has this many alternatives.
fn has_alternatives(alloc: Global, pattern: &str, count: usize) -> Result<bool, Fail> {
    let tree = tree_of(alloc, pattern)?;
    Ok(matches!(&tree, Node::Alt { children, .. } if children.len() == count))
}

#[test]
fn what_occurs_many_times_is_compiled_once(rt: HostRuntime) -> Result<(), Fail> {
    assert!(rt; is_repeat(rt.alloc(), "(a|b){60000}", 120000)?);
    assert!(rt; has_alternatives(rt.alloc(), "a||||||", 2)?);
    Ok(())
}

/// A run of a pattern.
fn run_of(alloc: Global, pattern: &str) -> Result<AnchoredMatcher, Fail> {
    let ere = lic_ere::read(alloc, pattern)?;
    let tree = compile_pattern(alloc, &ere)?;
    Ok(AnchoredMatcher::new(alloc, tree)?)
}

/// Takes tokens, which are given with a `|` between two.
fn push_all(run: &mut AnchoredMatcher, tokens: &str) {
    for token in tokens.split('|') {
        if !token.is_empty() {
            run.push(token);
        }
    }
}

/// Whether a pattern describes tokens, and whether a run of it is dead then.
fn outcome_of(alloc: Global, pattern: &str, tokens: &str) -> Result<(bool, bool), Fail> {
    let mut run = run_of(alloc, pattern)?;
    push_all(&mut run, tokens);
    Ok((run.accepts(), run.is_dead()))
}

/// Patterns, tokens, whether the pattern describes them, and whether a run is dead then.
const RUNS: &[(&str, &str, bool, bool)] = &[
    ("holders?", "", false, false),
    ("holders?", "holder", true, false),
    ("holders?", "holders", true, false),
    ("holders?", "holder|s", false, true),
    ("holders?", "hold|er", false, true),
    ("holders?", "the", false, true),
    (".{0,2} end", "end", true, false),
    (".{0,2} end", "a|end", true, false),
    (".{0,2} end", "ab|end", true, false),
    (".{0,2} end", "abc|end", false, true),
    (".{0,2} end", "a|b|end", false, true),
    ("[^0-9]+", "a|b", true, false),
    ("[^0-9]+", "a b|c", true, false),
    ("[^0-9]+", "a|1", false, true),
    ("[ab]{2}c", "abc", true, false),
    ("[ab]{2}c", "ab", false, false),
    ("[ab]{2}c", "ac", false, true),
    ("[ab]{2}c", "abbc", false, true),
    ("[ab]{2}c", "adc", false, true),
    ("(abc def|x)+", "abc|def", true, false),
    ("(abc def|x)+", "abc|defx", true, false),
    ("(abc def|x)+", "xxabc|defabc|defx", true, false),
    ("(abc def|x)+", "abc|x", false, true),
    ("(abc def|x)+", "xabc|de", false, false),
    ("(abc def|x)+", "x|x", false, true),
    ("(ab){2,4}", "ab", false, false),
    ("(ab){2,4}", "abab", true, false),
    ("(ab){2,4}", "ababa", false, false),
    ("(ab){2,4}", "abababab", true, false),
    ("(ab){2,4}", "ababababa", false, true),
    ("(ab){2,4}", "abb", false, true),
    ("(ab){3,}", "abab", false, false),
    ("(ab){3,}", "abababababababab", true, false),
    ("(ab){3,}", "abababa", false, false),
    ("(ab){3,}", "ababb", false, true),
];

fn try_run(
    rt: &impl Abort,
    alloc: Global,
    pattern: &str,
    tokens: &str,
    wanted: (bool, bool),
) -> Result<(), Fail> {
    let outcome = outcome_of(alloc, pattern, tokens)?;
    assert_eq!(rt; outcome, wanted, "{pattern} on {tokens}");
    Ok(())
}

#[test]
fn a_run_that_is_dead_says_so(rt: HostRuntime) -> Result<(), Fail> {
    for (pattern, tokens, is_described, is_dead) in RUNS {
        try_run(&rt, rt.alloc(), pattern, tokens, (*is_described, *is_dead))?;
    }
    Ok(())
}
