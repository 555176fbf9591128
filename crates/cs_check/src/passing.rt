//! When a manifest passes: the faults of its lines, and the first line with one.
//!
//! The laws are functions that do nothing.
//!
//! Meaning: all files of `specs/Passing/`, beside those of `cs_lines`. `Faults` says what each fault is, `Passing` when a
//! manifest passes, `Outcomes` what the answer of a check tells, `Claims` what a manifest that passes claims, and `Changes` what
//! users may change of it.

mod changes;
mod claims;
mod fault;
mod laws;

pub use changes::{negatives_may_go, texts_may_change};
pub use claims::{passing_claims, right_lines};
pub use fault::ClaimFault;
pub use laws::one_failure;
