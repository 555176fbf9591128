//! The bases of a suite, their edits one after another, and the classes that edits have.
//!
//! The layer above makes the bases without their texts by `bases_of`, and draws the edits of each batch by batch from
//! [`Candidates`], each with the mark whether it holds a poisoned pair, which is a class of its own. [`EditClass`] has all four.
//!
//! Meaning: `specs/Edits/Classes`. Working words of proofs: `Bases`, and `Candidates` (edits that are still to be classed).

mod bases;
mod candidates;
mod class;

pub(crate) use bases::bases_of;
pub(crate) use candidates::{Candidate, Candidates, next_batch};
pub use class::EditClass;
