//! Tests of the readers and of generated files, by public calls alone.
//!
//! The parts, from the bottom up; none stands on one behind it:
//!
//! - `readers`: tests of the readers by their public calls alone: bytes, C text, yacc files and lex files.
//! - `generated`: tests of generated files by public calls alone.
#![tactic(auto)]

mod generated;
mod readers;
