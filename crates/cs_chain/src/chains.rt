//! Chains of three rules, one under another: which a grammar has, and how many.
//!
//! The layers above count the chains of a grammar by `total`, get them one after another from `Chains`, and test one by
//! `fits_chain`. By `is_beside` they know those that differ in the inner rule alone. The law `each_chain_once` is a function that
//! does nothing.
//!
//! Of the files of `specs/Chains/`, these say what is meant: `Chain` (which chains a grammar has) and `Chains` (their list).
//! `Rest` and `Counts` have working words of proofs: what is left of the list, and how it is counted.

mod chain;
mod chains;
mod counting;
mod laws;

pub use chain::{Chain, fits_chain, is_beside};
pub use chains::Chains;
pub use counting::total;
pub use laws::each_chain_once;
