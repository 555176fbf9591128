//! Closed sets of a grammar: sets of which a test tells that they are closed, and from which alone it follows that a goal is met
//! by no tree.
//!
//! # What it is for
//!
//! The layers above fill `Sets` with what a manifest claims, test by `are_closed` that they are closed under the rules of the
//! grammar, and by `excludes` whether they exclude a goal. Nothing of this computes costs, contexts or pairs, and
//! `crates.txt` shows that no crate that does stands below.
//!
//! # What a contract sees
//!
//! `Sets` are seen as tables that tell for each number whether it is in a set. `specs/Closed/Closed` says when sets are closed
//! and which goals they exclude, `specs/Closed/Laws` what follows from that.
//!
//! # What is proved
//!
//! What closed sets exclude no tree of the start symbol meets, and marks that they keep apart are adjacent in no sentence: for
//! any grammar and any sets, by an induction over trees. The exact sets of a grammar are closed, and exclude each goal of the
//! grammar that no tree meets.
//!
//! # What is only tested
//!
//! That the calls answer where memory is ample: by `test_check`.
#![tactic(auto)]

mod closed;

pub use closed::{Set, Sets, closed_sets_exclude, closed_sets_part, exact_sets_pass};
