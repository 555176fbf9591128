//! Least trees and least contexts, over all trees, by the weights of tokens.
//!
//! The parts, from the bottom up; none stands on one behind it:
//!
//! - `cost`: least trees: what the least tree of each symbol of a grammar costs by some weights, and which tree is
//!   chosen.
//! - `ways`: least ways over fixed steps: what the least way to each node costs, at which source it begins, and by
//!   which step it reaches the node.
//! - `embed`: least contexts: what the least context of each nonterminal of a grammar costs by some weights, and which
//!   context is chosen.
//!
//! # What it is for
//!
//! By `cost` the layers above learn what the least tree of a symbol costs, and get the chosen one; by `embed` the same
//! of contexts of a nonterminal. What has least ways of its own asks `ways`.
//!
//! # What a contract sees
//!
//! Costs: the least size, or that there is none, or that each is above the limit. The file of each part says which
//! files of its folder of `specs/` are meaning.
//!
//! # What is proved
//!
//! Each cost is exact, over all trees, contexts and ways. A chosen tree or context exists exactly where there is any,
//! however large; it is of least size, and there is one. The laws are functions that do nothing.
//!
//! # What is only tested
//!
//! That the calls answer where memory is ample, and what they answer to worked rows: by `test_verdicts::trees`.
#![tactic(auto)]

mod cost;
mod embed;
mod ways;

pub use cost::{Cost, Costs, chosen_tree_exists, cost_of, is_below, one_chosen_tree, plus};
pub use embed::{
    Around, Context, Contexts, Embeds, RulePlace, chosen_context_exists, one_chosen_context,
    told_cost,
};
pub use ways::{Reach, Source, Step, Steps, first_steps, least_ways, turned};
