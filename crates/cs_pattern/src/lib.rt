//! The patterns of a lex file, read exactly: each text is a tree, within the limits, or has its fault.
//!
//! The parts, from the bottom up; none stands on one behind it:
//!
//! - `operations`: a pattern's items as operations, each behind what it works on, and what operations make on a stack:
//!   how deep a pattern is and how many leaves it has, and the pattern itself.
//! - `text`: patterns of a lex file: the definitions of a file, and the exact reading of a pattern's text, over the
//!   items that `cs_pattern_parts::items` finds in it, the patterns of `cs_pattern_parts::tree` and the operations of
//!   `cs_pattern::operations`.
//!
//! # What it is for
//!
//! The layers above add the definitions of a file to a `Definitions`, `check` them once, and read each rule's pattern
//! by `read_pattern`.
//!
//! # What a contract sees
//!
//! Texts, patterns and faults. The file of each part says which files of its folder of `specs/` are meaning.
//!
//! # What is proved
//!
//! Ok exactly where a text is a pattern within the limits, with the pattern of its one derivation; each fault is the
//! text's one fault. The same of definitions, with the one that is at fault. An automaton can be made of each pattern.
//! The laws are functions that do nothing.
//!
//! # What is only tested
//!
//! That patterns are read where memory is ample, and what is read of worked ones: by `test_scanner::scanning`, and of
//! those that were made to do harm by `test_hostile`.
#![tactic(auto)]

mod operations;
mod text;

pub use text::{
    ByteSet, CheckError, Checked, DefinitionError, Definitions, Kind, MOST_BYTES, MOST_DEPTH,
    MOST_LEAVES, Pattern, PatternError, PatternFault, byte_limit, definitions_accepted_or_refused,
    has_answer, has_derivation, no_tree_in_a_cycle, one_answer, one_pattern, one_reading,
    one_refusal, read_pattern, reads_or_stops, scannable_pattern,
};
