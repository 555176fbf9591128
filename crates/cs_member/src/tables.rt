//! What a grammar says of its items, worked out once for all lists.
//!
//! An [`Item`] is a rule up to a place. The layer above makes the [`Tables`] of a grammar: which nonterminals have a tree of
//! empty yield, with a least such tree of each; the fronts of rules by the symbols that they begin with; and with which
//! nonterminals the rules of each may begin. Sets of numbers are kept as bits, or as those words that aren't 0.
//!
//! All files of `specs/Tables/` have working words of proofs: `Item` (items, and what stands behind their places), `Sets`, `Adding`
//! (lists by number), `Fronts`, `Tables` and `Whole` (what the tables say of the grammar), `Expecting` (which nonterminals are
//! expected), `Asked` (what contracts say of these).

mod adding;
mod descents;
mod empties;
mod fronts;
mod item;
mod tables;
mod word;

pub(crate) use adding::add_at;
pub(crate) use empties::have_empty;
pub(crate) use fronts::Front;
pub(crate) use item::{Item, Next, next_of, over, same};
pub(crate) use tables::Tables;
pub(crate) use word::{Word, add_all, add_bits, bits_at, clear_bits, has, pack, stands, word_of};
