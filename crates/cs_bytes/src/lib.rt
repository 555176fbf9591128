//! Bytes and text: the ground on which all readers stand.
//!
//! # What it is for
//!
//! The layers above find most of their constructs by these calls: what stands at a place of a text, the longest run of
//! a class of bytes, lines, pairs of bytes, and the value of digits. No call takes memory, and each looks at a byte at
//! most twice.
//!
//! # What a contract sees
//!
//! All files of `specs/` are meaning: `Names` (the names of bytes), `Classes` (which bytes are of a class), `Places`
//! (what stands at a place, a longest run, a line), `Digits` (the number that digits spell) and `Limits` (how large a
//! text may be). `Escapes` says how a byte and a text stand between quotes; no call here writes them.
//!
//! # What is proved
//!
//! Each answer is exact. A text has one longest run of a class, the names are those of ASCII, and the most bytes of a
//! text are those of the definitions.
//!
//! # What is only tested
//!
//! What the calls answer to worked rows: by `test_reading::readers`. How often a byte is looked at is neither proved
//! nor tested.
#![tactic(auto)]

mod class;
mod digits;
mod laws;
mod place;
mod run;

pub use class::ByteClass;
pub use digits::{digit_of, number};
pub use laws::{byte_limit, byte_names, one_run};
pub use place::{begins, find_pair, from_offset, has_at, has_pair, same_bytes, to_offset};
pub use run::{line_len, line_size, run_end, run_len};

/// The most bytes of a text: of a yacc file, of a lex file, and of a pattern with all its definitions.
pub const MOST_BYTES: usize = 1_048_576;
