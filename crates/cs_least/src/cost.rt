//! Least trees: what the least tree of each symbol of a grammar costs by some weights, and which tree is chosen.
//!
//! The layers above make `Costs` of a `Grammar` and `Weights`, ask it by `cost` what the least tree of a symbol costs and by
//! `sum` what those of some symbols cost together, and write the codes of chosen trees by `least_into` and `all_into`. They
//! reckon with costs by its `plus` and `node`, or under any limit by `cost_of`, `plus` and `is_below`. The laws are functions
//! that do nothing.
//!
//! Of the files of `specs/Cost/`, these say what is meant: `Least` (least sizes, and what a cost tells), `Chosen`, and of `Trees`
//! `IsTreeCost`, `AreTreesCost`, `HasLeast` and `HaveSmall` (what least trees cost, and which are within the limit). `Rank` and
//! `Holds` have costs as numbers, which the layers above use too; the rest of `Trees`, `Tables`, `Users`, `Worklist`, `Searching`
//! and `Parts` have working words of proofs.

mod cost;
mod costs;
mod laws;
mod sums;
mod trees;
mod users;
mod worklist;
mod writing;

pub use cost::{Cost, cost_of, is_below, plus};
pub use costs::Costs;
pub use laws::{chosen_tree_exists, one_chosen_tree};
