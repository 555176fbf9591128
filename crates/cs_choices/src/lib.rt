//! What whoever asks for a text may choose: criteria of goals, operators of edits, slips of rules, what sizes count, and the
//! format.
//!
//! # What it is for
//!
//! The readers of words fill these in, and the layers that make goals, edits and lines act by them.
//!
//! # What a contract sees
//!
//! The values themselves. There is no `specs/`: definitions above say what a choice means.
//!
//! # What is proved
//!
//! Nothing is to prove: these are types alone, without calls.
//!
//! # What is only tested
//!
//! Nothing.
#![tactic(auto)]

mod criteria;
mod format;
mod operators;
mod slips;
mod weigh;

pub use criteria::Criteria;
pub use format::Format;
pub use operators::Operators;
pub use slips::Slips;
pub use weigh::Weigh;
