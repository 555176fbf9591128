//! A pattern's items as operations, each behind what it works on, and what operations make on a stack: how deep a pattern is and
//! how many leaves it has, and the pattern itself.
//!
//! The layer above makes the operations of a text by `postfix`, each name by the index of its definition, measures them by
//! `measure_of`, and only then, where the pattern is within the limits, makes it by `build`. Nothing here goes down a text.
//!
//! Meaning: `specs/Operations/Grammar.antt` (the derivation trees of items, and which pattern each gives), `specs/Operations/Depth.antt`,
//! `specs/Operations/Definitions.antt`, `specs/Operations/Operations.antt` (the operations of a tree), `specs/Operations/Trees.antt` (trees put in for names, and
//! what operations give). Working words of proofs: the other files (what operations make in an algebra, and how the operations
//! of items are made).

mod building;
mod measure;
mod names;
mod operations;

pub(crate) use building::{Known, build};
pub(crate) use measure::{Measure, leaf, measure_of};
pub(crate) use names::{Texts, index_of};
pub(crate) use operations::{Op, postfix};
