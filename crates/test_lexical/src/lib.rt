//! Tests of what a scanner's rules take, by public calls alone. Nothing stands on this crate.
#![tactic(auto)]

#[cfg(test)]
mod lines;
#[cfg(test)]
mod rules;
