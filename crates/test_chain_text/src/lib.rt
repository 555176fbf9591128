//! Tests of the text of chains by public calls alone: worked rows, with and without a lex file, and an output that fails.
#![tactic(auto)]

#[cfg(test)]
mod texts;
