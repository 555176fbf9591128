//! Tests of the text of `wrong` by public calls alone: worked rows, and an output that fails.
#![tactic(auto)]

#[cfg(test)]
mod texts;
