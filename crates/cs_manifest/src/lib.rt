//! Manifests: what stands in them, and their lines, written to a sink as they are made.
//!
//! The parts, from the bottom up; none stands on one behind it:
//!
//! - `output`: what lines are put with: an output in front of a sink, the names of symbols, and escaped texts.
//! - `manifest`: what a manifest is, in both formats.
//! - `filling`: the lines of negatives but for what each has alone, and tokens as these lines have them.
//! - `writer`: the lines of a manifest, written to a sink as they are made.
//!
//! # What it is for
//!
//! The layers above begin a `Manifest`, give it one entry after another and finish it. Other texts they put by an
//! `Output`.
//!
//! # What a contract sees
//!
//! Of a manifest its head and the counts of what was written, and of a sink what it took, its faults and its room. The
//! file of each part says which files of its folder of `specs/` are meaning.
//!
//! # What is proved
//!
//! Ok means that the sink took exactly the lines, and a failure that it took a prefix of them and that faults rose. A
//! file has one manifest by a choice. The laws are functions that do nothing.
//!
//! # What is only tested
//!
//! That the calls answer where memory is ample, and the lines of worked rows: by `test_manifest`.
#![tactic(auto)]

mod filling;
mod manifest;
mod output;
mod writer;

pub use filling::{OpenEdit, OpenLines, OpenNegative, OpenPair, TokenPieces};
pub use manifest::{
    Counts, Form, Head, SharedVerdict, few_negatives, one_manifest, one_text, some_manifest,
};
pub use output::{
    LINE_LENGTH, Numeral, Output, Piece, put_count, put_names, put_quoted, put_spaced_mark,
    put_spaced_token, put_symbol, put_text_bytes, put_token_name, put_yield, write_line,
};
pub use writer::{
    Entry, FilledNegative, Manifest, NumberedNegative, put_derivation, put_edit, put_file,
    put_lexemes, put_rendered, put_text_lines,
};
