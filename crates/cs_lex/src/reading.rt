//! Lex files, read exactly beside a yacc file: the pattern and the kind of each rule, and the tokens of literals.
//!
//! The layers above call `read_lex` and go on with the `LexFile`: an automaton can be made of its patterns, it has as many kinds
//! as patterns and a token or 0 for the literal of each byte. The laws say that bytes are accepted or refused and not both, and
//! mean one file or have one error.
//!
//! Meaning, in `specs/Reading/`: `File`, `Tokens`, `Kinds`, `Patterns`, `Errors` and `Reading`; `Laws` has the statements of the laws.
//! `Found`, `Settled` and `RegexCode` are working words of the proofs.

mod definitions;
mod error;
mod file;
mod kinds;
mod laws;
mod literals;
mod patterns;
mod read;
mod rules;
mod settled;

pub use cs_pattern::PatternFault;
pub use cs_pattern_parts::{Kind, Pattern};
pub use error::{LexError, LexLimit};
pub use file::LexFile;
pub use laws::{accepted_or_refused, limits, one_file, one_refusal, refused_is_not_accepted};
pub use read::read_lex;

/// The most bytes of a lex file.
pub const MOST_BYTES: usize = crate::layout::MOST_BYTES;

/// The most rules of a lex file.
pub const MOST_RULES: usize = 2048;

/// The most leaves of the patterns of all rules together.
pub const MOST_POSITIONS: u32 = 16_384;
