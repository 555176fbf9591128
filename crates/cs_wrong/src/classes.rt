//! The class of each slip: whether its list is one for the text, or why it isn't.
//!
//! The layer above draws the slips one batch after another from `Coming`, each with its list and with what is known of it without
//! trees; the other classes are told by `class_of`.
//!
//! Meaning: `specs/Classes/Classes`. Working words of proofs: `Met` (lists that were met), `Coming` (slips that are still to be classed).

mod class;
mod classing;
mod coming;
mod met;

pub use class::SlipClass;
pub(crate) use classing::class_of;
pub(crate) use coming::{Candidate, Coming, next_batch};
