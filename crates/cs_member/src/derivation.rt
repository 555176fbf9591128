//! The derivation of a list, by the way back through its chart.
//!
//! The layer above begins with one [`Task`], the tree of the start symbol over the whole list, and gets the rule numbers of such a
//! tree by `write`, which takes tasks from the list's end.
//!
//! All files of `specs/Derivation/` have working words of proofs: `Back` (how an item was found), `Writing` (what tasks write), `Asked`
//! (what contracts say of these).

mod back;
mod writing;

pub(crate) use writing::{Task, write};
