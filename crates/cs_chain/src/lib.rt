//! Chains of three rules: a rule under a rule under a rule, as context goals go one step deeper.
//!
//! The parts, from the bottom up; none stands on one behind it:
//!
//! - `chains`: which chains a grammar has, in which order, and how many.
//! - `judging`: whether a tree of the start symbol meets a chain, and the chosen least one.
//!
//! # What it is for
//!
//! The layers above count the chains of a grammar by `total`, get them one after another from `Chains`, and the verdict of each
//! by `judge_chain` or, for workers, by `ChainWork`.
//!
//! # What a contract sees
//!
//! `Chains` is seen as the list of the chains that are still to be given. `specs/Chains/Chain` says which chains a grammar has,
//! `specs/Chains/Chains` in which order they stand. `specs/Judging/Meets` says which trees meet a chain, and
//! `specs/Judging/Verdict` what is told of these, and which of them is chosen.
//!
//! # What is proved
//!
//! Each chain is given once and in its place, and none that isn't the grammar's; then comes None from then on. The total is the
//! length of their list. The verdict of a chain is over all trees: it is infeasible exactly where none meets it, and else the
//! least size and the chosen tree's code, or that each is larger than the limit. A chain has one verdict and one chosen tree at
//! most, and a chosen tree where any tree meets it.
//!
//! # What is only tested
//!
//! That the calls answer where memory is ample, and that `total` is fast: by `test_chain`.
#![tactic(auto)]

mod chains;
mod judging;

pub use chains::{Chain, Chains, each_chain_once, fits_chain, is_beside, total};
pub use judging::{
    ChainVerdict, ChainWork, Core, Frame, chosen_tree_exists_for_chain, chosen_tree_meets_chain,
    judge_chain, one_chain_verdict,
};
