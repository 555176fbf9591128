//! What patterns are made of: the items of their texts, and trees with what they match; and what a match gives.
//!
//! The parts, from the bottom up; none stands on one behind it:
//!
//! - `items`: the lexical layer of patterns: which item a pattern's text spells in front (POSIX lex, "Regular
//!   expressions in lex").
//! - `tree`: patterns as trees over sets of bytes (POSIX.1-2017, lex, "Regular expressions in lex"): what each matches,
//!   what a repetition makes of one, how many leaves it has and how deep it is.
//! - `kind`: what a rule's action gives for a match.
//!
//! # What it is for
//!
//! The layers above ask `front_of` for the item in front of a text, and build a `Pattern` by its variants, of
//! `ByteSet`s.
//!
//! # What a contract sees
//!
//! A set of bytes as one ascending list, a pattern as its value. The file of each part says which files of its folder
//! of `specs/` are meaning.
//!
//! # What is proved
//!
//! A text spells at most one item, of one size, or is stopped for one cause, and not both. Which bytes a set has is
//! exact after each call. Repetitions match as many parts as they say; leaves are counted exactly, and a copy is the
//! same. The laws are functions that do nothing.
//!
//! # What is only tested
//!
//! That the calls answer where memory is ample, and what they answer to worked rows: by `test_scanner::scanning`, and
//! for the deepest patterns `test_hostile`.
#![tactic(auto)]

mod items;
mod kind;
mod tree;

pub use items::{
    ByteSet, Front, Item, Placed, Repetition, Stop, front_of, has_is_contains, one_item, one_set,
    one_stop, stopped_spells_nothing,
};
pub use kind::Kind;
pub use tree::{
    Pattern, alone, between_counts, bytes_alone, copy, exact_counts, leaf_count, least_counts,
    non_empty_parts, optional_counts, some_text,
};
