//! Generated files: a yacc file and a lex file for a number, the same on every machine.
//!
//! # What it is for
//!
//! The layer above calls `make` and reads the two files by `read_yacc` and `read_lex`, which refuse neither.
//!
//! # What a contract sees
//!
//! The bytes of both files. Meaning, in `specs/`: `Draws` (the sequence of numbers, and what is drawn from it), `Rules`
//! (which parts are drawn in which order), `Texts` (the bytes of both files) and `Boundary` (what the readers and the
//! automaton take).
//!
//! # What is proved
//!
//! The files of a number are the generator's, byte for byte, and neither is too long for its reader. The yacc file is
//! accepted, and the lex file beside each yacc file; its patterns have no more sets of positions than an automaton may
//! have.
//!
//! # What is only tested
//!
//! That the files are made where memory is ample, and their bytes for worked numbers: by `test_reading::generated`.
#![tactic(auto)]

mod files;
mod lex;
mod numbers;
mod symbol;
mod yacc;

pub use files::{Generated, make};
