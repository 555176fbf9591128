//! What a manifest is, in both formats. How its lines are put is no part of this layer.
//!
//! The layers above tell a manifest by its [`Head`], and count by [`Counts`] what stands in it. The laws say that a file has one
//! manifest by a choice.
//!
//! Meaning, in `specs/Manifest/`, from the top down: `Manifest` (the manifest of a file by a choice; closed sets are those of
//! `cs_verdicts::closed`), `Head` and `Counts` (which lines stand for a head and for the end), `SharedLines` and `Lines` (the lines
//! that the second format has of its own, and those of the first and of both, in their order), `Named` (what has names), `ByWork`
//! (what texts are made by, of the work that renders them). The words of lines and the names of symbols are those of
//! `cs_manifest::output`.

mod counts;
mod head;
mod laws;
mod verdict;

pub use counts::Counts;
pub use head::{Form, Head};
pub use laws::{few_negatives, one_manifest, one_text, some_manifest};
pub use verdict::SharedVerdict;
