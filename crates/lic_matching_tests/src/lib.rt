//! Tests of the libraries that match, by their public calls, for what no run of the program shows.
#![tactic(auto)]

#[cfg(test)]
mod automata;
#[cfg(test)]
mod finder;
#[cfg(test)]
mod keys;
#[cfg(test)]
mod letters;
#[cfg(test)]
mod lists;
#[cfg(test)]
mod profile;
#[cfg(test)]
mod sets;
#[cfg(test)]
mod shown;
#[cfg(test)]
mod values;
