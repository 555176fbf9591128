//! What tests make of a yacc file and a lex file: both read, lexemes, and desks that hold them.
//!
//! # What it is for
//!
//! The crates of tests that need files that were read take them from here.
//!
//! # What a contract sees
//!
//! Little: what these calls make is seen by the tests that use them.
//!
//! # What is proved
//!
//! That the calls return, as all calls do. No claim stands on them.
//!
//! # What is only tested
//!
//! All else, by the tests that use it.
#![tactic(auto)]

mod desks;
mod read;

pub use desks::{desk, suite_words};
pub use read::{Trouble, lexemes_of, read_files, sums, yacc_of};
