//! The text of the check of a manifest, and its writing.
//!
//! # What it is for
//!
//! The layer above hands in a yacc file, a scanner, a manifest and an output, and gets the text of `check` written:
//! [`write_check`] tells whether it says yes.
//!
//! # What a contract sees
//!
//! Of an output, what it took, its faults and its room. Which text is asked for is said by `specs/Text.antt`.
//!
//! # What is proved
//!
//! The text says yes, with the counts of goals and negatives, exactly where the manifest passes. Else it names the first
//! line that has a fault, and the lowest fault of that line. A manifest has one such text at most, and that it has none
//! cannot be. After a failed write the output has a prefix of it.
//!
//! # What is only tested
//!
//! That the call answers where memory is ample, and what it writes of worked rows: by `test_check`, and by `test_command` in whole commands.
#![tactic(auto)]

mod laws;
mod lines;
mod writing;

pub use laws::{denial_is_failure, one_check_text, some_check_text};
pub use writing::write_check;
