//! Patterns of a lex file: the definitions of a file, and the exact reading of a pattern's text, over the items that
//! `cs_pattern_parts::items` finds in it, the patterns of `cs_pattern_parts::tree` and the operations of `cs_pattern::operations`.
//!
//! The layers above add the definitions of a file to a `Definitions`, `check` them once, and read each rule's pattern by
//! `read_pattern`. Of each pattern an automaton can be made (`IsScannable`).
//!
//! Meaning: `specs/Text/Table.antt` (which item may stand where, and where reading stops), `specs/Text/Substitution.antt` (definitions put
//! in for names), `specs/Text/Names.antt`, `specs/Text/Uses.antt` (which definitions use which), `specs/Text/Limits.antt`, `specs/Text/Answers.antt`
//! (what reading a pattern answers), `specs/Text/Checking.antt` (what checking definitions answers), `specs/Text/Classes.antt`,
//! `specs/Text/Laws.antt`. Working words of proofs: `specs/Text/ReadView.antt`, `specs/Text/UseView.antt`, `specs/Text/Checked.antt`,
//! `specs/Text/Stages.antt`, `specs/Text/Needed.antt`.

mod checking;
mod compiling;
mod definitions;
mod fault;
mod laws;
mod limits;
mod needed;
mod place;
mod read;
mod reading;
mod uses;

pub use cs_pattern_parts::{ByteSet, Kind, Pattern};
pub use definitions::{Checked, Definitions};
pub use fault::{CheckError, DefinitionError, PatternError, PatternFault};
pub use laws::{
    byte_limit, definitions_accepted_or_refused, has_answer, has_derivation, no_tree_in_a_cycle,
    one_answer, one_pattern, one_reading, one_refusal, reads_or_stops, scannable_pattern,
};
pub use read::read_pattern;

/// The most bytes of a pattern's text, and of the names and texts of all definitions together.
pub const MOST_BYTES: usize = cs_bytes::MOST_BYTES;

/// The most groups, substitutions and repetitions around one atom.
pub const MOST_DEPTH: u32 = 200;

/// The most leaves of a pattern after substitution.
pub const MOST_LEAVES: u32 = 8192;
