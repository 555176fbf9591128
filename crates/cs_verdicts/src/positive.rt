//! Verdicts: whether a goal is met by a tree of the start symbol, and the chosen least one.
//!
//! The layers above make the `Tables` of a grammar and its weights, and get the verdict of a goal by `judge`: `Infeasible`,
//! `Large`, or the least size and the chosen derivation. `judge_tree_goal` gives the verdicts of rule and context goals from
//! `Embeds` alone. `Positives` gives the goals of the chosen criteria with their verdicts, one at a time. The laws
//! are functions that do nothing.
//!
//! Of the files of `specs/Positive/`, these say what is meant: `Verdict` (a verdict, and the chosen tree of a goal) and `Positives` (the
//! goals with their verdicts, in order). `Judges`, `Occurrences` and `Sums` have working words of proofs.

mod contexts;
mod judges;
mod judging;
mod laws;
mod pairs;
mod positive;
mod rules;
mod sums;
mod tables;
mod verdict;

pub use judging::{judge, judge_tree_goal};
pub use laws::{
    chosen_tree_exists_for_goal, chosen_tree_meets, one_list_of_positives, one_verdict,
};
pub use positive::{Positive, Positives};
pub use tables::Tables;
pub use verdict::Verdict;
