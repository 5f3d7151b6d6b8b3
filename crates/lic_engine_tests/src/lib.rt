//! Tests of the engine where a read or a write fails: what is answered, which bytes are written, and that no other call fails.
#![tactic(auto)]

#[cfg(test)]
mod failures;
#[cfg(test)]
mod streams;
