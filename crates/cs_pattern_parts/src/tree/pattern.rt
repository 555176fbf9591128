// Patterns.

use crate::items::ByteSet;

/// A pattern over bytes (POSIX lex, regular expressions).
#[derive(Debug, Drop)]
pub enum Pattern {
    /// The empty text.
    Empty,
    /// One byte of the set.
    Class(ByteSet),
    /// The parts one after another.
    Join(Vec<Pattern>),
    /// One of the parts.
    Either(Vec<Pattern>),
    /// Any number of texts of the part, one after another.
    Many(Box<Pattern>),
}
