//! Suites and the checker agree: what is written of a yacc file in the second format passes.
//!
//! The law stands between two definitions, that of a manifest (`cs_manifest`) and that of passing (`cs_check`). There is no
//! code: the function does nothing.
//!
//! # What it is for
//!
//! Nothing stands above it. It says that the checker refuses no suite that the program writes.
//!
//! # What a contract sees
//!
//! `specs/Accord` says what passes. `specs/Suite` has the lines of a suite and `specs/Named` the names of a file: both have
//! working words of the proof.
//!
//! # What is proved
//!
//! The law `suites_pass`, of all accepted yacc files, all scanners and all options.
//!
//! # What is only tested
//!
//! Nothing.
#![tactic(auto)]

mod laws;

pub use laws::suites_pass;
