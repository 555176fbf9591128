//! What stands beside a suite: whether a text is in the language, and edits that hold no poisoned pair and are outside it all the
//! same.
//!
//! The parts, from the bottom up; none stands on one behind it:
//!
//! - `membership`: the text of `member`.
//! - `edits`: the bases of a suite, their edits one after another, and the classes that edits have.
//! - `writing`: the text of `deep`, written as it is made, and the laws.
//!
//! # What it is for
//!
//! The layer above hands in what it has read and an output. [`write_member`] writes the text of `member`: whether a list of
//! tokens is a sentence, with a derivation. [`write_deep`] writes the text of `deep`: of the edits of a suite's bases those of
//! class [`EditClass::Outside`], and how many edits there are of each class.
//!
//! # What a contract sees
//!
//! Of an output, what it took, its faults and its room. Which text is asked for is said by `specs/Membership` and
//! `specs/Writing/Deep`, and which class an edit has by `specs/Edits/Classes`. The other files of `specs/` have working words of
//! proofs.
//!
//! # What is proved
//!
//! A text of `member` is `outside` exactly where no tree of the start symbol yields the tokens, and else has a derivation of
//! them. After a refusal the output has a prefix of some such text, or nothing.
//!
//! By a choice a file has exactly one text of `deep`. It has exactly the edits of class outside, over all trees, and the counts
//! of the four classes add up to that of the edits. After a refusal the output has a prefix of the text. The laws are functions
//! that do nothing.
//!
//! # What is only tested
//!
//! That the calls answer where memory is ample, and what they write of worked rows: by `test_deep`. No clause says how many
//! workers share a batch.
#![tactic(auto)]

mod edits;
mod membership;
mod writing;

pub use edits::EditClass;
pub use membership::write_member;
pub use writing::{
    Deep, classes_add_up, one_class, one_deep, some_class, some_deep, some_membership, write_deep,
};
