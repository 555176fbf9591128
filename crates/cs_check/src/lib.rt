//! The checker of manifests, which takes nothing from the compiler but the manifest.
//!
//! The parts, from the bottom up; none stands on one behind it:
//!
//! - `passing`: what a manifest has to say to pass, line by line.
//! - `checking`: the pass over the lines of a manifest.
//!
//! # What it is for
//!
//! `check` tells whether all claims of a manifest hold, and else the first line with a fault and its lowest fault. The layer above
//! gives it the files as they were read, and the bytes of the manifest, of which there are at most 67,108,864.
//!
//! It stands on `cs_lines`, which reads lines, and on `cs_closed`, which tells what closed sets exclude. Nothing of this
//! computes costs, contexts or pairs, and `crates.txt` shows that no crate that does stands below.
//!
//! # What a contract sees
//!
//! `specs/Passing/Faults` says what each fault is, `specs/Passing/Passing` which line of a text is the first with a fault, and
//! `specs/Passing/Outcomes` what an answer tells. The other files of `specs/Passing/` have the words of these.
//!
//! # What is proved
//!
//! A text fails at one line at most with one lowest fault, and doesn't pass then. `check` answers `Yes` only where the manifest
//! passes, with the counts of its goals and negatives, and `No` only with the line and the fault at which it fails. Where it
//! answers `Yes` the manifest's claims hold. Texts may be exchanged, and negatives taken out.
//!
//! # What is only tested
//!
//! That `check` answers where memory is ample: by `test_check`.
#![tactic(auto)]

mod checking;
mod passing;

pub use checking::{Outcome, check};
pub use passing::{
    ClaimFault, negatives_may_go, one_failure, passing_claims, right_lines, texts_may_change,
};
