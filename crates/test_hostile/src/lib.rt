//! Tests of files, patterns and lists that were made to do harm: each call ends in time, with the answer that it promises.
//! Nothing stands on this crate.
#![tactic(auto)]

#[cfg(test)]
mod accepted;
#[cfg(test)]
mod ending;
#[cfg(test)]
mod line_ends;
#[cfg(test)]
mod lists;
#[cfg(test)]
mod patterns;
#[cfg(test)]
mod refused;
#[cfg(test)]
mod yacc;
