//! Tests of the command, by public calls alone.
//!
//! The parts, from the bottom up; none stands on one behind it:
//!
//! - `command`: tests of the command: its words, its files, the manifests of rules, and summaries; by public calls
//!   alone. Nothing stands on this crate.
//! - `suites`: tests of suites of both formats, by the command alone. Nothing stands on this crate.
//! - `outside`: tests of the outside, and of the command where a file can't be read or an output can't be written, by
//!   public calls alone. Nothing stands on this crate.
#![tactic(auto)]

mod command;
mod outside;
mod suites;
