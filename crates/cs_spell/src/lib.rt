//! The spellings of a scanner's rules: for each rule the least text that it wins, shown in a least sentence.
//!
//! The parts, from the bottom up; none stands on one behind it:
//!
//! - `texts`: texts with a spelling in them.
//! - `telling`: what is told of each rule of a scanner.
//! - `writing`: the text of spellings, written to an output, and the laws.
//!
//! # What it is for
//!
//! A suite has one lexeme for each token, so a parser whose scanner reads one spelling of a token and not another passes it. Here
//! each rule of the scanner is spelled once. `write_spell` writes the text of all spellings.
//!
//! # What a contract sees
//!
//! `specs/Telling/Spelling` says which text that is: by the verdicts of rule goals (`specs/Telling/Chosen`), texts with a spelling
//! in them (`specs/Texts/Texts`), what is told of each rule (`specs/Telling/Told`), and its lines (`specs/Telling/Lines`).
//!
//! # What is proved
//!
//! The text written is the one of the definition, whole or in front of a failed write. There is at most one such text, and not none.
//!
//! # What is only tested
//!
//! Nothing.
#![tactic(auto)]

mod telling;
mod texts;
mod writing;

pub use writing::{one_spelling, some_spelling, write_spell};
