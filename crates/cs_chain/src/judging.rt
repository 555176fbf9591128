//! Verdicts of chains: whether a tree of the start symbol meets a chain, and the chosen least one.
//!
//! The layers above get the verdict of a chain by `judge_chain`, from the least contexts of a grammar; `ChainWork` is the same for
//! workers. What chains share that differ in the inner rule alone is a `Frame`, and the node with that rule a `Core`: both
//! together tell the verdict. The laws are functions that do nothing.
//!
//! Of the files of `specs/Judging/`, these say what is meant: `Meets` (which trees meet a chain) and `Verdict` (a verdict, and the
//! chosen tree of a chain). `Frame` says what its two parts are. `Cuts` has working words of proofs.

mod costs;
mod cuts;
mod frame;
mod judge;
mod laws;
mod verdict;
mod work;

pub use frame::{Core, Frame};
pub use judge::judge_chain;
pub use laws::{chosen_tree_exists_for_chain, chosen_tree_meets_chain, one_chain_verdict};
pub use verdict::ChainVerdict;
pub use work::ChainWork;
