//! Tests of inputs that come in pieces, by the public calls: what a feeder gives however an input is cut, what is ready meanwhile, and a refusal that stays; of random texts, which a plain reader reads as well; and of worked ones.
#![tactic(auto)]

#[cfg(test)]
mod drawn;
#[cfg(test)]
mod feeders;
#[cfg(test)]
mod lists;
#[cfg(test)]
mod plain;
#[cfg(test)]
mod random;
#[cfg(test)]
mod shown;
#[cfg(test)]
mod slices;
#[cfg(test)]
mod worked;
