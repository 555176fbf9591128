//! Lex files beside yacc files, read exactly: patterns, kinds, literals, limits.
//!
//! The parts, from the bottom up; none stands on one behind it:
//!
//! - `layout`: the layout of a lex file: its bytes are cut into sections, lines, definitions and rules.
//! - `actions`: the kind of an action of a lex rule: what the rule gives where it matches.
//! - `reading`: what the layout and the actions mean beside a yacc file: patterns, kinds, and the tokens of literals.
//!
//! # What it is for
//!
//! The layers above call `read_lex` and go on with the `LexFile`: the patterns and kinds of its rules, and the tokens
//! of literals.
//!
//! # What a contract sees
//!
//! The bytes, and the file that they mean. The file of each part says which files of its folder of `specs/` are
//! meaning.
//!
//! # What is proved
//!
//! Ok exactly where the bytes are accepted, with the file that they mean; each refusal exactly where it is the bytes'
//! refusal, at its place. Bytes are accepted or refused, and not both. An automaton can be made of the patterns.
//!
//! # What is only tested
//!
//! That files are read where memory is ample, and what is read of worked files: by `test_reading::readers`.
#![tactic(auto)]

mod actions;
mod layout;
mod reading;

pub use actions::{ActionKind, action_kind, one_kind};
pub use layout::{
    Definition, Layout, LayoutError, MOST_BYTES, Part, Rule, definitions_end, layout_or_stop,
    limits as layout_limits, named_parts, new_names, one_end, one_layout, one_stop, read_layout,
    stopped_has_no_layout,
};
pub use reading::{
    Kind, LexError, LexFile, LexLimit, MOST_POSITIONS, MOST_RULES, Pattern, PatternFault,
    accepted_or_refused, limits, one_file, one_refusal, read_lex, refused_is_not_accepted,
};
