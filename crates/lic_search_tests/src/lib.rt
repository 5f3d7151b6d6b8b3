//! Tests of the calls that give matches: worked texts, and random ones against the finder.
#![tactic(auto)]

#[cfg(test)]
mod asked;
#[cfg(test)]
mod chosen;
#[cfg(test)]
mod forms;
#[cfg(test)]
mod left;
#[cfg(test)]
mod made;
#[cfg(test)]
mod profile;
#[cfg(test)]
mod random;
#[cfg(test)]
mod seed;
#[cfg(test)]
mod tally;
#[cfg(test)]
mod wanted;
#[cfg(test)]
mod worked;
