//! Kinds of trees by what they yield: what the least tree of a kind and a symbol costs, and which one is chosen.
//!
//! A kind is any tree, one of empty yield, one that begins with a token, one that ends with it. The layers above make `Kinds` of
//! the `Embeds` of a grammar, ask them by `told` what the least tree of a kind and a symbol costs, get by `Sweep` what trees of
//! the symbols of a right side cost that are of a kind together, and the codes of the chosen ones by `kind_into`; `Kinds::plus`
//! adds such costs. `Row` is a list of costs by number. The laws are functions that do nothing.
//!
//! For ways of their own they have `Kinds::steps_to_ends`, the steps inwards to the last token of a yield; `symbol_number`, the
//! node of a symbol there; and `step_cost`, which turns a cost into that of a step or a source.
//!
//! Of the files in `specs/Kinds/` these say what is meant: `Kinds`, `KindCost`, `ChosenKind`, `Flat`, `Numbers` and `Laws`; and of others
//! `IsSwept` (`Sweep`), `HasSwept`, `IsSweptOver` and `AppendsIn` (`Clauses`), `HasSmallOfKind` and `HaveSmallOfKind` (`Parts`),
//! `AreStepsToEnds` (`Nets`) and `IsStepCost` (`RimsOf`). The rest has working words of proofs: what rows, rims, sweeps,
//! known roots and pending parts hold.

mod empties;
mod kind;
mod kinds;
mod known;
mod laws;
mod lefts;
mod nets;
mod rims;
mod roots;
mod row;
mod rows;
mod side;
mod sweep;
mod writing;

pub use kind::TreeKind;
pub use kinds::Kinds;
pub use laws::{chosen_of_kind_exists, flat_of_kind, one_chosen_of_kind};
pub use rims::{step_cost, symbol_number};
pub use row::Row;
pub use sweep::Sweep;
pub use writing::kind_into;
pub(crate) use writing::{Part, kind_onto};
