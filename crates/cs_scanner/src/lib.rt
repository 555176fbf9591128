//! Scanners: the automaton of a lex file's patterns, what it takes of a text, and the least text for each token.
//!
//! The parts, from the bottom up; none stands on one behind it:
//!
//! - `automaton`: the automaton of a list of patterns: what a scanner built from them knows after each text, decided
//!   without walking patterns (the positions of patterns: McNaughton and Yamada 1960, Glushkov 1961; sets as states:
//!   Rabin and Scott 1959).
//! - `scanning`: the longest match at a place of a text, the first rule that has it, and whether a text scans to a list of
//!   tokens (POSIX.1-2017, lex).
//! - `lexeme`: the least text that a scanner takes for each token.
//!
//! # What it is for
//!
//! The layers above make a `Scanner`, compare texts with lists of tokens by `agrees`, get the tokens of a text by
//! `scan`, and its lexemes by `Lexemes`. Those that walk over texts themselves step by the `Automaton`.
//!
//! # What a contract sees
//!
//! An automaton as its patterns and the sets of its states, lexemes as the list of their texts. The file of each part
//! says which files of its folder of `specs/` are meaning.
//!
//! # What is proved
//!
//! What a state tells is exact, for each text that leads there. A match is the longest, by the first rule that has it;
//! a text has one scan. A lexeme is the least of all texts whose scan is one match that gives the token. The laws are
//! functions that do nothing.
//!
//! # What is only tested
//!
//! That the calls answer where memory is ample, and what they answer to worked rows: by `test_scanner`.
#![tactic(auto)]

mod automaton;
mod lexeme;
mod scanning;

pub use automaton::{Automaton, AutomatonError, State, numbered_words};
pub use lexeme::{
    Lexemes, StateTexts, one_lexeme, one_list_of_lexemes, some_lexeme, some_list_of_lexemes,
    total_order,
};
pub use scanning::{
    Agreement, Scanned, Scanner, agrees, longest, one_match, one_scan, one_stop, scan,
    shared_scanner, some_scan, stop_or_whole, three_stops,
};
