//! Pairs of neighbours in framed sentences: which marks may stand side by side, over all trees, and what the least tree costs
//! that shows it.
//!
//! The layers above make `Pairs` of the `Embeds` of a grammar, ask them by `adjacent` whether some
//! sentence has one mark directly followed by another, by `cost` what the least tree with such a sentence costs, and get the
//! code of the chosen one by `derive`. Whether a nonterminal yields nothing, and which tokens its yields begin and end with,
//! they ask by `empty`, `first` and `last`. The laws are functions that do nothing.
//!
//! Of the files in `specs/Pairs/` these say what is meant: `Beside` (seams), `Pairs`, `Closed` (what nonterminals yield), `ChosenPair`
//! and `Laws`, and of `Clauses` `IsPairCost`; kinds of trees are the layer's below. The rest has working words of proofs: what
//! sources and rows hold.

mod derive;
mod follows;
mod fronts;
mod kept;
mod laws;
mod meeting;
mod pairs;
mod sources;

pub use kept::Kept;
pub use laws::{chosen_pair_exists, one_chosen_pair};
pub use pairs::Pairs;
