//! What lines are put with: an output in front of a sink, the names of symbols, and escaped texts.
//!
//! The layer above makes an [`Output`] over a lent sink and a lent line, puts one text after another, and asks at the end
//! whether a write failed. What was put went to the sink in its order, but for what waits in the line; after a write that failed
//! nothing more reaches the sink. Numbers, words, names and texts between quotes are put by calls of their own. An output takes
//! no memory.
//!
//! A [`Numeral`] counts up and keeps its digits. A [`Piece`] has bytes that are put often. A [`Speller`] lends an output whose
//! sink is memory, so that what is put there can be kept as a piece. A line that stands alone is written by [`write_line`].
//!
//! All files of `specs/Output/` are meaning: `Putting` (what a text that was put did to an output and its sink), `Words` (words, lines
//! and escapes), `Names` (the names of symbols and marks, which numbers have one, and the names of tokens, one behind another),
//! `Spelled` (pieces that are spelled in memory).

mod line;
mod names;
mod numeral;
mod output;
mod piece;
mod speller;
mod words;

pub use line::write_line;
pub(crate) use names::{put_nonterminal, put_spaced_name};
pub use names::{
    put_quoted, put_spaced_mark, put_spaced_token, put_symbol, put_text_bytes, put_token_name,
};
pub use numeral::Numeral;
pub use output::{LINE_LENGTH, Output};
pub use piece::Piece;
pub(crate) use speller::{Speller, spelled_piece};
pub use words::{put_count, put_names, put_yield};
