//! Tests of what is written, and by workers, by public calls alone.
//!
//! The parts, from the bottom up; none stands on one behind it:
//!
//! - `writing`: tests of the writing of manifests by public calls alone: the entries of plans, whole manifests, the
//!   writers, how a run ends. Nothing stands on this crate.
//! - `workers`: tests of workers, of lists that they render and of gates that wait for each other, by public calls
//!   alone. Nothing stands on this crate.
#![tactic(auto)]

mod workers;
mod writing;
