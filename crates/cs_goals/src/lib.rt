//! Goals of coverage: the list of goals of a grammar, and which derivations meet them.
//!
//! # What it is for
//!
//! The layers above get the goals of the chosen criteria one after another from `Goals`, test a goal by `fits_goal`,
//! and decide by `meets` whether the tree of a derivation meets a goal.
//!
//! # What a contract sees
//!
//! `Goals` as the list of goals that are still to be given. Of the files of `specs/`, these say what is meant: `Goal`
//! (which goals a grammar has), `Goals` (their list), `Meets`. `Rest` and `Awaits` have working words of proofs: what
//! is left of the list, and which nonterminals are awaited.
//!
//! # What is proved
//!
//! Each goal of the chosen criteria is given once, in order, and no other. `meets` is true exactly where the
//! derivation's tree meets the goal. The law is a function that does nothing.
//!
//! # What is only tested
//!
//! That the calls answer where memory is ample, and what they answer to worked rows: by `test_verdicts::trees`.
#![tactic(auto)]

mod goal;
mod goals;
mod laws;
mod meeting;
mod neighbours;
mod occurrence;

pub use goal::{Goal, Occurrence, fits_goal};
pub use goals::Goals;
pub use laws::each_goal_once;
pub use meeting::meets;
pub use occurrence::next_in;
