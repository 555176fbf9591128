//! The bases of a manifest: lists of tokens, each once, in the order in which they came.
//!
//! The layer above offers the tokens of each feasible goal, in the order of the goals, to [`Bases`],
//! which keeps those that come first with their tokens until it has as many as are wanted. It then
//! lends each base with the number of its goal.
//!
//! Meaning: `specs/Bases/Bases` (when tokens are taken, and that the bases of entries come by offers). The
//! law is a function that does nothing.

mod bases;
mod laws;

pub use bases::Bases;
pub use laws::bases_come_by_offers;
