//! Samples for tests: grammars as tables of their rules' sides, weights, texts of files, suites that were written by
//! hand, and texts that repeat a piece.
//!
//! # What it is for
//!
//! The crates of tests take their rows from here.
//!
//! # What a contract sees
//!
//! Little: what these calls make is seen by the tests that use them.
//!
//! # What is proved
//!
//! That the calls return, as all calls do. No claim stands on them.
//!
//! # What is only tested
//!
//! All else, by the tests that use it.
#![tactic(auto)]

mod error;
mod files;
mod grammars;
mod suites;
mod texts;
mod weights;

pub use error::SampleError;
pub use files::{C_SCANNER, LETTER, LETTER_SCANNER, NUMBER, SCANNER, SUMS};
pub use grammars::{Lines, grammar_of, grammar_of_sums, rules, sums};
pub use suites::{LETTER_SUITE_ONE, LETTER_SUITE_TWO, SUMS_RULES, SUMS_SUITE_ONE, SUMS_SUITE_TWO};
pub use texts::{repeated, words};
pub use weights::weights_of;
