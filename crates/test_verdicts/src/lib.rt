//! Tests of trees, neighbours and verdicts, by public calls alone.
//!
//! The parts, from the bottom up; none stands on one behind it:
//!
//! - `trees`: tests of the layers of trees by their public calls alone: grammars, goals, least trees, kinds of trees,
//!   least ways, least contexts, and the edits of sentences.
//! - `pairs`: tests of neighbours, verdicts and cases by their public calls alone. Nothing stands on this crate.
#![tactic(auto)]

mod pairs;
mod trees;
