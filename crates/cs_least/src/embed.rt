//! Least contexts: what the least context of each nonterminal of a grammar costs by some weights, and which context is
//! chosen.
//!
//! A context is a tree of the start symbol with a hole. The layers above make `Embeds` of `Costs`, ask them by `embed` what
//! the least context of a nonterminal costs, and get the chosen one by `around`, between whose two lists the code of any
//! tree of the nonterminal makes the code of a tree of the start symbol. `Contexts` keep those that are asked for again.
//! The laws are functions that do nothing. For ways of their own they have `told_cost`, which turns what is told of a node
//! into a cost, and `RulePlace`, by which their definitions say where a step leads.
//!
//! Of the files of `specs/Embed/`, `ChosenContext`, `Around` and `Contexts` say what is meant, and `told_cost` of `Ways`. The
//! rest of `Ways`, `Embeds` and `Kept` have working words of proofs: contexts as the ways of `cs_least::ways`.

mod context;
mod contexts;
mod embeds;
mod inwards;
mod laws;
mod table;

pub use context::Context;
pub use contexts::{Around, Contexts};
pub use embeds::Embeds;
pub use inwards::RulePlace;
pub use laws::{chosen_context_exists, one_chosen_context};
pub use table::told_cost;
