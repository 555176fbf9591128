//! The text of `deep`, written as it is made: workers judge a batch of edits, and its lines are written in order.
//!
//! The layer above calls [`write_deep`]. The laws of both texts are functions that do nothing.
//!
//! Meaning: `specs/Writing/Deep`. Working words of proofs: `Judging` (edits that are judged), `Tally` (how many there are of each
//! class), `Lines` (entries whose lines can be put), `Progress` (what was written).

mod judging;
mod laws;
mod lines;
mod tally;
mod writing;

pub use laws::{classes_add_up, one_class, one_deep, some_class, some_deep, some_membership};
pub use writing::{Deep, write_deep};
