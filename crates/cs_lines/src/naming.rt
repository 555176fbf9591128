//! The names of a file's symbols and marks, as lines have them.
//!
//! Meaning: `specs/Words/Names`.

mod finding;
mod literal;
mod names;

pub use finding::{find_nonterminal, find_token};
pub use names::{is_mark, is_nonterminal, is_symbol, is_token};
