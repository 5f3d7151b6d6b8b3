//! Tests of the libraries where memory runs out: each call either answers as ever or that memory ran out, and then, made again, as ever.
#![tactic(auto)]

#[cfg(test)]
mod between;
#[cfg(test)]
mod lent;
#[cfg(test)]
mod matches;
#[cfg(test)]
mod reading;
#[cfg(test)]
mod refused;
#[cfg(test)]
mod runs;
