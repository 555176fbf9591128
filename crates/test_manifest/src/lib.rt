//! Tests of manifests and of negatives, by public calls alone.
//!
//! The parts, from the bottom up; none stands on one behind it:
//!
//! - `manifest`: tests of the lines and the bases of manifests, by public calls alone. Nothing stands on this crate.
//! - `mutants`: tests of negatives as they are made, and of the texts that are told for them, by public calls alone.
#![tactic(auto)]

mod manifest;
mod mutants;
