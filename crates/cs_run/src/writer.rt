//! The writers: they make what the manifest of accepted files is made by, and write it to an output.
//!
//! The layer above gives [`write_rules`] a yacc file, and [`write_suite`] a yacc file with what the lex file's texts are scanned
//! by and what the options choose. Nothing is written before the lexemes, the weights and all tables are made, and in the second
//! format the closed sets of the grammar. Ok means that the output took the whole manifest; a [`Halt`](cs_io::Halt) that it took
//! a prefix of it. [`write_summary`] makes the files of a number and their manifest, and writes one line that tells of both.
//!
//! Meaning: `specs/Writer/Suite` (the manifest of a pair of files); what a writer did to its output is said in the words of
//! `specs/Asked` of `cs_io`. Working words: `Summary`.

mod rules;
mod scanner;
mod suite;
mod summary;
mod weights;

pub use rules::write_rules;
pub(crate) use scanner::scanner_of;
pub(crate) use suite::means_of;
pub use suite::write_suite;
pub use summary::write_summary;
pub(crate) use weights::weights_of;
