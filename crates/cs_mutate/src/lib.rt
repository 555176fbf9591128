//! Edits of lists of tokens: token mutations, and those of them that certainly lead out of a language.
//!
//! # What it is for
//!
//! The layers above get the edits of a list one after another from [`Edits`], test one by [`edit_fits`], make the
//! edited list by [`apply`] or [`apply_into`], and ask [`poison`] for the first pair of a framed list that stands side
//! by side in no sentence. [`Negatives`] gives the edits whose results have such a pair, one after another. Of these a
//! [`Keeper`] gives those that are kept: of the ones with one such pair the first so many of each operator and left
//! mark. `Pairs`, which poison is judged by, are those of `cs_pairs`.
//!
//! # What a contract sees
//!
//! [`Edits`] and [`Negatives`] as the lists of what is still to be given. Of the files of `specs/`, these say what is
//! meant: `Edit` (what an edit makes of a list), `Edits` (the list of a list's edits), `Mutant` (which lists come from
//! a list by a mutation), `Poison` (poisoned pairs), `Judged` (lists without one, by their length), `Negatives` (the
//! edits that give one), `Kept` (which of them are kept) and `Tells` of `Keeping` (what a keeper knows of those before).
//! `Rest` and the others of `Keeping` are working words of proofs: what is left of the list of edits, what comes next.
//!
//! # What is proved
//!
//! Each edit by the chosen operators is given once, in order. A list comes by one edit at most; each other list that a
//! mutation makes comes by one. Of the edits that give a poisoned pair none is missing, and no such list is a sentence.
//! Of those each is kept exactly where it is one of the first so many. The laws are functions that do nothing.
//!
//! # What is only tested
//!
//! That the calls answer where memory is ample, and what they answer to worked rows: by `test_verdicts::trees` and
//! `test_manifest::mutants`.
#![tactic(auto)]

mod candidates;
mod edit;
mod edits;
mod kept;
mod laws;
mod negative;
mod poisoning;
mod touched;

pub use cs_pairs::Pairs;
pub use edit::{Edit, apply, apply_into, edit_fits};
pub use edits::Edits;
pub use kept::Keeper;
pub use laws::{each_mutant_once, few_kept, one_list_of_kept, one_list_of_negatives};
pub use negative::{Negative, Negatives};
pub use poisoning::poison;
