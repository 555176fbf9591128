//! The lines of a manifest of the second format, read in place, and the names of a file's symbols as they stand in them.
//!
//! The parts, from the bottom up; none stands on one behind it:
//!
//! - `lines`: what a line of a manifest says.
//! - `naming`: which symbol or mark of a file has a name.
//! - `laws`: bytes say one line at most.
//!
//! # What it is for
//!
//! The checker takes a manifest line by line: `line_size` tells how long the line in front is, and `read_line` what it says,
//! with its names and numbers where they stand.
//! `find_token`, `is_mark` and the others compare names with those of a yacc file. No call takes memory but `Quoted::bytes`.
//!
//! # What a contract sees
//!
//! `specs/Lines/Texts` says which bytes are which line, `specs/Lines/Read` what the answer of `read_line` tells of one.
//! `specs/Words/Words` says how numbers and texts between quotes are spelled, `specs/Words/Names` how symbols and marks are
//! named, `specs/Lines/Pieces` which lines a text has.
//!
//! # What is proved
//!
//! Bytes say one line at most, and `read_line` tells it, or None exactly where they say none. A symbol is found by its name
//! where one has it, and the first that has.
//!
//! # What is only tested
//!
//! That `Quoted::bytes` answers where memory is ample: by `test_check`.
#![tactic(auto)]

mod laws;
mod lines;
mod naming;

pub use laws::one_line;
pub use lines::{
    Counts, EditWords, GoalWords, Line, Names, Numbers, Quoted, RowKind, SetKind, Verdict,
    line_size, read_line,
};
pub use naming::{find_nonterminal, find_token, is_mark, is_nonterminal, is_symbol, is_token};
