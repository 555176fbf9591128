//! The closed sets of a grammar: which nonterminals have a tree, a context and a tree of empty yield, which tokens begin and end
//! the yields of each, and which marks follow the begin mark and each token. By them another program can check that no sentence
//! meets a goal, without trusting this one.
//!
//! The layer above makes [`Closed`] by the tables of the grammar, and reads its lists. The law is a function that does nothing.
//!
//! Meaning: `specs/Closed/Closed` (the closed sets, over all trees, contexts and sentences). Working words of proofs: `Collecting`.

mod closed;
mod collecting;
mod laws;

pub use closed::{Closed, Marks, Tokens};
pub use laws::one_list_of_sets;
