//! The top call: `run` does what the words of the command line ask for, over a desk of files, an output and an error
//! output. The program stands on it, and uses `run` alone.
//!
//! Meaning: `specs/Command/Words` (what is kept by what words), `Carrying` (how the writing of a text ended), `Scanned` (the same of
//! texts that a scanner is needed for). What `run` promises stands in `specs/Command/Headline` of `cs_run::ending`.

mod chains;
mod check;
mod command;
mod deep;
mod endings;
mod laws;
mod lexemes;
mod lexical;
mod text;

pub use command::run;
pub use laws::one_asked_text;
