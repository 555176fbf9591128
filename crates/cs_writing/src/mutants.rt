//! The negatives of a base, made one after another and written to a manifest.
//!
//! The layer above makes [`Tools`] of a file and of what lists of tokens are rendered with, of each base a [`Maker`], and of that a
//! [`MadeNegative`], in whose memory each negative of the base is made in its turn. It writes itself to a manifest. Of negatives
//! that differ in the token that their edit puts alone the lines are spelled once, where texts need no scan; else the text of an
//! edited list is told by that of the base where it can be.
//!
//! Meaning: `specs/Mutants/Makers` (what makes negatives), `specs/Mutants/Mutants` (what is made of a negative, and what its writing does). Working
//! words of proofs: `AreSound` and `IsReady` of `Makers`, and `Rows`.

mod made;
mod maker;
mod opened;
mod row;
mod rows;
mod tools;

pub use made::MadeNegative;
pub use maker::Maker;
pub use tools::Tools;
