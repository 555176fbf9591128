//! The top call: what the words of the command line ask for, done, and how that ends.
//!
//! The parts, from the bottom up; none stands on one behind it:
//!
//! - `input`: the files that a command names, or bytes in their place: what they mean, or the first cause why they are
//!   not given.
//! - `ending`: how a run ends: by which cause, with which status and which line; and what follows from that for whoever
//!   ran it.
//! - `writer`: the writers: they make what the manifest of accepted files is made by, and write it to an output.
//! - `command`: the top call, over a desk of files, an output and an error output.
//!
//! # What it is for
//!
//! `main` calls `run` over a desk of files, an output and an error output, and ends with the status that it answers.
//!
//! # What a contract sees
//!
//! Of the desk which files it tells, of the outputs what they took, their faults and their room. The file of each part
//! says which files of its folder of `specs/` are meaning.
//!
//! # What is proved
//!
//! The headline, of whole runs and all commands: each status has its cause, on status 0 the output has the one text
//! that is asked for, and else a beginning of such a text or nothing; where files are accepted and nothing outside
//! fails, the status is 0 or 5. The laws are functions that do nothing.
//!
//! # What is only tested
//!
//! That runs with ample memory end with what they are asked for, and what stands after faults in mid-stream: by
//! `test_command`; writers by `test_writing`; files that were made to do harm by `test_hostile`.
#![tactic(auto)]

mod command;
mod ending;
mod input;
mod writer;

pub use command::{one_asked_text, run};
pub use ending::{Ending, finish};
pub use input::{Meant, Pair, PairAndText, Refusal, Stop, TextBytes, judge_pair, line, read_files};
pub use writer::{write_rules, write_suite, write_summary};
