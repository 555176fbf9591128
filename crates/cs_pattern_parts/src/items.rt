//! The lexical layer of patterns: which item a pattern's text spells in front (POSIX lex, "Regular expressions in lex").
//!
//! The layer above asks `front_of` for the item in front of what is left of a text and its size, or why there is none, and
//! decides itself which item may stand where. It may use `ByteSet` for the bytes that an item matches. What an item means is no
//! part of this layer. The laws say that a text spells at most one item, of one size, or is stopped for one cause, and not both.
//!
//! Meaning, in `specs/Items/`: `Members` (sets of bytes), `ByteKind` (bytes that stand for themselves), `Parts` (escapes),
//! `NamedClasses`, `Brackets`, `Spelling` (what a text spells, and why it spells nothing), `Items`, `StandsFor`. `Views` says
//! which value of the code is which of theirs. All else there are working words of proofs: they follow the code step by step.

mod bracket;
mod byte_set;
mod character;
mod front;
mod interval;
mod item;
mod laws;
mod mark;
mod quoted;

pub use byte_set::ByteSet;
pub use front::{Front, Stop, front_of};
pub use item::{Item, Placed, Repetition};
pub use laws::{has_is_contains, one_item, one_set, one_stop, stopped_spells_nothing};

/// The greatest number in an interval.
pub(crate) const MOST_REPEATS: u32 = 1000;
