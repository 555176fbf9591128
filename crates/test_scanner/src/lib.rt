//! Tests of patterns, scanners and texts, by public calls alone.
//!
//! The parts, from the bottom up; none stands on one behind it:
//!
//! - `scanning`: tests of the crates that scan, by their public calls alone.
//! - `texts`: tests of lexemes and renderings by their public calls alone, over a yacc file and a lex file.
#![tactic(auto)]

mod scanning;
mod texts;
