//! Texts with a spelling in them.
//!
//! The layer above gathers the lexemes of a list of tokens, puts a spelling among them by its [`Way`], which is in place of one
//! lexeme or around each, and asks whether the text has a match by the rule of the spelling.
//!
//! Meaning: `specs/Texts/Texts`. Working words of proofs: `Searching` (where a search among matches stands), `Pieces` (texts from
//! pieces), `Gathered` (the lexemes, gathered).

mod matching;
mod pieces;
mod way;

pub(crate) use matching::has_match;
pub(crate) use pieces::{Gathered, gather, spell};
pub(crate) use way::Way;
