//! The lines of a manifest of the second format, looked at in place: what each says, with names as they stand there.
//!
//! A line is taken word by word: `words` has what stands between its spaces, `word` tells which words are names and numbers,
//! and each form is read by a function of its own. No call takes memory but `Quoted::bytes`.
//!
//! Meaning, in `specs/Lines/`: `Line` and `Texts` say which bytes are which line, `Read` what the code's lines tell of them,
//! `Numbers` how numbers are told. Working words: `Splits` has the words of a text, `Keywords` those in front, `Spelled` texts
//! between quotes, `Taken` what is taken of a line.

mod entries;
mod head;
mod indented;
mod keyword;
mod line;
mod names;
mod numbers;
mod parts;
mod pieces;
mod quoted;
mod reading;
mod spelled;
mod steps;
mod word;
mod words;

pub use line::{Counts, EditWords, GoalWords, Line, RowKind, SetKind, Verdict};
pub use names::Names;
pub use numbers::Numbers;
pub use pieces::line_size;
pub use quoted::Quoted;
pub use reading::read_line;
