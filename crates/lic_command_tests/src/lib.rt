//! Tests of the whole program over streams in memory: its status, what it writes and what it reports.
#![tactic(auto)]

#[cfg(test)]
mod command;
