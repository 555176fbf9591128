//! What a rule's action gives for a match.
//!
//! The readers of lex files settle the [`Kind`] of each rule, and the scanners act by it. There is no folder of `specs/`: definitions
//! above say what a kind means.

/// What a match of a rule gives.
#[derive(Clone, Copy, Debug, PartialEq, Eq)]
pub enum Kind {
    /// This token, by its number.
    Token(u16),
    /// The token whose literal is the match's first byte.
    OwnByte,
    /// Nothing: the match is left out.
    Skip,
    /// What is not known: the scan ends here.
    Foreign,
}
