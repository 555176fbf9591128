//! The text of the chains of a yacc file, written as it is made.
//!
//! The parts, from the bottom up; none stands on one behind it:
//!
//! - `entries`: chains with what is told of each, their lines, and how many there are of each verdict.
//! - `rows`: the lines of chains without texts, put together of parts that many chains share.
//! - `writing`: the text of chains, written as it is made, and the laws.
//!
//! # What it is for
//!
//! The layer above hands in a yacc file, weights, what texts are rendered with, where there is a lex file, and an output, and gets the text of `chains` written: [`write_chains`].
//!
//! # What a contract sees
//!
//! Of an output, what it took, its faults and its room. Which text is asked for is said by `specs/Entries/Text`; the other files of
//! `specs/` have working words of proofs, `Progress` those of all parts.
//!
//! # What is proved
//!
//! The text has each chain once and in order, with its verdict over all trees, the tokens of the chosen tree and their text. A
//! file has one such text. After a refusal the output has a prefix of it.
//!
//! # What is only tested
//!
//! That the call answers where memory is ample, and what it writes of worked rows: by `test_chain_text`.
#![tactic(auto)]

mod entries;
mod rows;
mod writing;

pub use writing::{Chained, one_chains_text, some_chains_text, write_chains};
