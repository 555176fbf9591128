//! Closed sets of a grammar: sets from which alone it follows that a goal is met by no tree.
//!
//! The layers above fill `Sets` from a manifest, test by `are_closed` that they are closed under the rules of the grammar, and
//! by `excludes` whether they exclude a goal. A goal that closed sets exclude is met by no tree: the law `closed_sets_exclude`.
//! The laws are functions that do nothing.
//!
//! Of the files of `specs/Closed/`, these say what is meant: `Sets`, `Closed`, `Exact`, `Laws`. `Keeping` has working words of
//! proofs: what is looked at of a rule, token by token.

mod excluding;
mod keeping;
mod laws;
mod sets;
mod symbols;

pub use laws::{closed_sets_exclude, closed_sets_part, exact_sets_pass};
pub use sets::{Set, Sets};
