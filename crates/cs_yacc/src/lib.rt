//! Yacc files, read exactly: the grammar of a file, and the names of its tokens and nonterminals.
//!
//! The parts, from the bottom up; none stands on one behind it:
//!
//! - `items`: the items of a yacc file: its bytes are cut into marks, directives, names, literals and signs, and a
//!   table says which item may come where.
//! - `reading`: what the items of a file mean together: its grammar, and the names of its tokens and nonterminals.
//!
//! # What it is for
//!
//! The layers above call `read_yacc` and go on with the `YaccFile`: its grammar is well formed, each of its numbers has
//! a name, and all names differ.
//!
//! # What a contract sees
//!
//! The bytes, and the file that they mean. The file of each part says which files of its folder of `specs/` are
//! meaning.
//!
//! # What is proved
//!
//! Ok exactly where the bytes are accepted, with the file that they mean; each refusal exactly where it is the bytes'
//! refusal, at its place. Bytes are accepted or refused, and not both. The laws are functions that do nothing.
//!
//! # What is only tested
//!
//! That files are read where memory is ample, and what is read of worked files: by `test_reading::readers`, and of
//! files that were made to do harm by `test_hostile`.
#![tactic(auto)]

mod items;
mod reading;

pub use items::{
    Directive, Item, ItemsError, MOST_BYTES, Placed, byte_limit, one_reading, one_stop, one_stuck,
    read_items, stopped_is_not_read, stuck_is_not_taken, syntax_fault,
};
pub use reading::{
    Name, TokenName, YaccError, YaccFile, YaccLimit, accepted_or_refused, one_file, one_refusal,
    read_yacc, refused_is_not_accepted,
};
