//! The lines of negatives but for what each has alone, and tokens as these lines have them.
//!
//! Negatives that differ in the token that their edit puts alone have lines that differ in their number, that token and its
//! lexeme alone. What stands around these is spelled once, as [`OpenLines`] of an [`OpenNegative`], and [`TokenPieces`] have the
//! name and the lexeme of each token. Whoever writes negatives fills the one with the other.
//!
//! Meaning: `specs/Filling/Open` (negatives without their token, and their lines). Working words of proofs: `Holes`, `ByToken`.

mod open;
mod token_pieces;

pub use open::{OpenEdit, OpenLines, OpenNegative, OpenPair};
pub use token_pieces::TokenPieces;
