//! Verdicts: which goals have a sentence, the least one of each, which goals it meets, and how another program can
//! check that a goal has none.
//!
//! The parts, from the bottom up; none stands on one behind it:
//!
//! - `positive`: verdicts: whether a goal is met by a tree of the start symbol, and the chosen least one.
//! - `closed`: the closed sets of a grammar: which nonterminals have a tree, a context and a tree of empty yield, which
//!   tokens begin and end the yields of each, and which marks follow the begin mark and each token. By them another
//!   program can check that no sentence meets a goal, without trusting this one.
//! - `cases`: cases: derivations that are shared by goals, each once, and the first of them that meets a goal.
//!
//! # What it is for
//!
//! The layers above make the `Tables` of a grammar, get the verdict of each goal, place derivations among `Cases`, and
//! read the `Closed` sets.
//!
//! # What a contract sees
//!
//! Verdicts, derivations and lists of numbers. The file of each part says which files of its folder of `specs/` are
//! meaning.
//!
//! # What is proved
//!
//! A verdict is exact, over all trees of the start symbol, with the code of the chosen tree, of which there is one. The
//! first case that meets a goal is the lowest. Closed sets have exactly what the definitions say, over all trees,
//! contexts and sentences. The laws are functions that do nothing.
//!
//! # What is only tested
//!
//! That the calls answer where memory is ample, and what they answer to worked rows: by `test_verdicts::pairs`.
#![tactic(auto)]

mod cases;
mod closed;
mod positive;

pub use cases::{Cases, Named, one_placing};
pub use closed::{Closed, Marks, Tokens, one_list_of_sets};
pub use cs_pairs::Pairs;
pub use positive::{
    Positive, Positives, Tables, Verdict, chosen_tree_exists_for_goal, chosen_tree_meets, judge,
    judge_tree_goal, one_list_of_positives, one_verdict,
};
