//! Cases: derivations that are shared by goals, each once, and the first of them that meets a goal.
//!
//! The layer above places the derivation of each feasible goal, in the order of the goals, by `Cases::place`, and is told the
//! derivation's own case, the lowest case whose tree meets the goal, and whether the case is new. The law is a function that
//! does nothing.
//!
//! Of the files in `specs/Cases/` these say what is meant: `Cases` (what cases are, and what is told when a derivation is placed) and
//! `Laws`. `Met` has the list of goals that a tree meets, `Firsts` and `Table` what is known of goals that were met, `KeyHash` and
//! `CodeHash` what a goal and a code give a hasher: working words of proofs.

mod cases;
mod code;
mod firsts;
mod laws;
mod met;

pub use cases::{Cases, Named};
pub use laws::one_placing;
