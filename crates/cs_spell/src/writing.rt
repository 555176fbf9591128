//! The text of spellings, written to an output.
//!
//! The layer above calls [`write_spell`]. The laws are functions that do nothing.
//!
//! All files of `specs/Writing/` have working words of proofs: `Counts` (the end line by its counts), `Counting` (how rules are
//! counted), `Putting` (how lines are put), `Writing` (what is asked for, and what it needs).

mod counting;
mod laws;
mod putting;
mod writing;

pub use laws::{one_spelling, some_spelling};
pub use writing::write_spell;
