//! The text of chains, written as it is made, batch by batch.
//!
//! The layer above calls [`write_chains`]. The laws are functions that do nothing.
//!
//! What was made and written is said in the words of `specs/Progress`.

mod laws;
mod writing;

pub use laws::{one_chains_text, some_chains_text};
pub use writing::{Chained, write_chains};
