//! Tests of spellings, by public calls alone. Nothing stands on this crate.
#![tactic(auto)]

#[cfg(test)]
mod spellings;
