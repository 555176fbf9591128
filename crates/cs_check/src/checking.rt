//! The check of a manifest: one pass over its bytes, in which each line is looked at in place.
//!
//! Meaning: `specs/Passing/`. The files of `specs/Checking/` have working words of proofs.

mod above;
mod apart;
mod cases;
mod claims;
mod derivations;
pub(crate) mod due;
mod edits;
mod entries;
mod excluded;
mod finding;
mod framed;
pub(crate) mod goals;
mod head;
mod marks;
mod negatives;
pub(crate) mod part;
mod pass;
mod scans;
mod sizes;
mod taking;
mod texts;
mod verdicts;

pub use pass::{Outcome, check};
