//! The manifest of a plan, written to an output as its entries are made.
//!
//! The layer above makes a plan and the positives of its goals, and gives both to [`write_out`]. Ok
//! means that the output took the whole manifest; a `Halt` that it took a prefix of it. The entries
//! of goals come first, in the second format each behind its case where that is new, and their bases are
//! kept; then each base with its negatives.
//!
//! Meaning: `specs/Writing/Writing` (what the counts of a manifest say of its text). Working words of proofs: `Written`
//! (entries of goals), `Mutants` (bases and negatives).

mod bases;
mod goals;
mod mutants;
mod writing;

pub use writing::write_out;
