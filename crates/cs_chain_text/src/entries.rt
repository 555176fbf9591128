//! Chains with what is told of each, their lines, and how many there are of each verdict.
//!
//! The layer above has chains told by workers, each by one call of a [`TellWork`], writes the lines of what they made, and keeps a
//! [`Tally`].
//!
//! Meaning: `specs/Entries/Text`.

mod entry;
mod lines;
mod tally;

pub(crate) use entry::{TellWork, Told};
pub(crate) use lines::{write_end, write_entries, write_head};
pub(crate) use tally::Tally;
