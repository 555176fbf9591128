//! The words of the command line: which are accepted, what they ask for, and else the first word that can't stand where
//! it stands. The layer above uses `read_words`, and the `Request` that it gives: a `Command`, its `Arguments` and `Options`.
//! No call takes memory.
//!
//! Meaning, from the top down: `specs/Commands` (a row for each command: its word, what it takes, its options), `Words` (which
//! word may stand behind which, accepted words, the first bad one), `Requests` (what words ask for, and its files), `Options`
//! (options, their settings and defaults), `Choices` and `Values` (their values). Working words of proofs: `Steps`.
#![tactic(auto)]

mod choices;
mod command;
mod given;
mod laws;
mod options;
mod request;
mod separator;
mod setting;
mod values;

pub use command::{Command, GrammarCommand, PairCommand, Role};
pub use laws::{accepted_or_bad, one_bad_word, one_request};
pub use options::Options;
pub use request::{Arguments, BadWord, Request, read_words};
pub use separator::Separator;
