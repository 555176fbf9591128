//! Yacc files, read exactly: the grammar of a file, and the names of its tokens and nonterminals.
//!
//! The layers above call `read_yacc` and go on with the `YaccFile`: its grammar is well formed, each of its numbers has a
//! name, and all names differ.
//!
//! Meaning, in `specs/Reading/`: `Reading` (which bytes are accepted, what file they mean, and why others are refused) over
//! `Meaning` (what the items mean), `File` and the definitions of `cs_yacc::items`; the laws say that bytes are accepted or
//! refused, mean one file or have one error, and not both. `Errors`, `SpellingView`, `Places`, `RuleView`, `PartsView` and
//! `AcceptedView` say what the code's values are; `Finding`, `Marks`, `SpellingHash`, `SymbolTable` and `TokenNumbers` are
//! working words of proofs.

mod accepted;
mod error;
mod fault;
mod file;
mod gather;
mod laws;
mod limit;
mod meaning;
mod name;
mod number;
mod parts;
mod read;
mod spelled;
mod spelling;
mod token_names;

pub use crate::items::one_reading;
pub use error::{YaccError, YaccLimit};
pub use file::YaccFile;
pub use laws::{accepted_or_refused, one_file, one_refusal, refused_is_not_accepted};
pub use name::{Name, TokenName};
pub use read::read_yacc;

/// The most bytes of a yacc file.
pub const MOST_BYTES: usize = crate::items::MOST_BYTES;
