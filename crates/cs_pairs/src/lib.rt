//! Neighbours in sentences: which marks stand side by side, and the least trees that show it.
//!
//! The parts, from the bottom up; none stands on one behind it:
//!
//! - `kinds`: kinds of trees by what they yield: what the least tree of a kind and a symbol costs, and which one is
//!   chosen.
//! - `pairs`: pairs of neighbours in framed sentences: which marks may stand side by side, over all trees, and what the
//!   least tree costs that shows it.
//!
//! # What it is for
//!
//! The layers above learn by `Pairs` whether some sentence has one mark directly followed by another, and what the
//! least tree costs that shows it, and get the chosen one. `Kinds` tells the same of trees by what they yield.
//!
//! # What a contract sees
//!
//! Costs, and answers of yes or no. The file of each part says which files of its folder of `specs/` are meaning.
//!
//! # What is proved
//!
//! Both are exact, over all trees of the start symbol, whatever their size. A pair has a chosen tree exactly where some
//! tree has the pair; it is of least size, and there is one. So has each kind of trees. The laws are functions that do
//! nothing.
//!
//! # What is only tested
//!
//! That the calls answer where memory is ample, and what they answer to worked rows: by `test_verdicts::pairs`, of
//! kinds by `test_verdicts::trees`.
#![tactic(auto)]

mod kinds;
mod pairs;

pub use kinds::{
    Kinds, Row, Sweep, TreeKind, chosen_of_kind_exists, flat_of_kind, kind_into,
    one_chosen_of_kind, step_cost, symbol_number,
};
pub use pairs::{Kept, Pairs, chosen_pair_exists, one_chosen_pair};
