//! Tests of the texts of `member` and `deep` by public calls alone: worked rows, each call with ample memory, outputs that fill up.
#![tactic(auto)]

#[cfg(test)]
mod deep;
#[cfg(test)]
mod member;
