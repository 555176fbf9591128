//! Patterns as trees over sets of bytes (POSIX.1-2017, lex, "Regular expressions in lex"): what each matches, what a repetition
//! makes of one, how many leaves it has and how deep it is.
//!
//! The layers above build a `Pattern` by its variants and state what they do by `regex`, its value, and by `Matches`. They may
//! count the leaves of a pattern and copy it, both on a stack in memory. A copy is asked for only of a pattern that is not
//! deeper than 1,000: to let a pattern go takes as many calls within one another as it is deep.
//! An automaton is made of patterns that are `AreScannable`. The laws say what `Matches` means of repetitions and of joins and
//! eithers of one part, and which lists a pattern matches.
//!
//! Meaning: `specs/Tree/Pattern.antt` (values, `Matches`, leaves, nesting), `specs/Tree/Repeated.antt` (what a repetition makes),
//! `specs/Tree/Counting.antt` (so many parts, one after another), `specs/Tree/Scannable.antt`. Working words of proofs: `specs/Tree/Nodes.antt`.

mod copying;
mod counting;
mod laws;
mod nodes;
mod pattern;

pub use crate::items::{ByteSet, Repetition};
pub use copying::copy;
pub use counting::leaf_count;
pub use laws::{
    alone, between_counts, bytes_alone, exact_counts, least_counts, non_empty_parts,
    optional_counts, some_text,
};
pub use pattern::Pattern;
