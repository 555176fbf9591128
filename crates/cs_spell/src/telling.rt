//! What is told of each rule of a scanner.
//!
//! The layer above has the rules of the grammar judged, each once, by `judge_rules`. `tell_all` says of each scanner rule why it has
//! no spelling, or chooses the grammar rule in whose least sentence it is shown, and renders that sentence: [`Told`].
//!
//! Of the files of `specs/Telling/`, these say what is meant: `Chosen` (the rule in which a spelling is shown), `Told` (what is told),
//! `Lines` (its lines) and `Spelling` (what is told of all rules, and the text). `Choosing`, `Seen` and `Telling` have working words
//! of proofs.

mod choosing;
mod judged;
mod telling;
mod told;

pub(crate) use judged::{Judged, judge_rules};
pub(crate) use telling::{Tools, tell_all};
pub(crate) use told::{Shown, Told};
