//! Wrong rules: negatives by slips of single rules.
//!
//! The parts, from the bottom up; none stands on one behind it:
//!
//! - `slips`: the slips of a grammar's rules, and the list of each.
//! - `classes`: the class of each slip: whether its list is one for the text, or why it isn't.
//! - `writing`: the text of `wrong`, written as it is made, and the laws.
//!
//! # What it is for
//!
//! A slip drops, doubles or exchanges a symbol of one rule. The layer above hands in what it has read and an output, and gets the
//! text of `wrong` written: [`write_wrong`]. Each slip is told there with a list of tokens that a parser takes which has it, in a
//! least context, where the list is outside the language for sure. Beside it stand the slips of a grammar, [`slips_of`], and the
//! list of each, [`list_of`].
//!
//! # What a contract sees
//!
//! Which slips a grammar has, and in which order, is said by `specs/Slips/Slips`, the list of one by `specs/Slips/Lists`, its
//! class by `specs/Classes/Classes`, and the text by `specs/Writing/Text`. The other files of `specs/` have working words of
//! proofs.
//!
//! # What is proved
//!
//! Each slip is there once. Its list is that of the chosen context and the chosen trees, and it has none exactly where there are
//! no such trees. A file has one text; no list that is written is a sentence. After a refusal the output has a prefix of the
//! text. The laws are functions that do nothing.
//!
//! # What is only tested
//!
//! That the calls answer where memory is ample, and what is written of worked rows: by `test_wrong`.
#![tactic(auto)]

mod classes;
mod slips;
mod writing;

pub use classes::SlipClass;
pub use slips::{Change, Slip, SlipList, list_of, slips_of};
pub use writing::{
    Wrong, each_slip_once, each_wrong_list_once, one_list_of_slip, one_wrong_text, slips_add_up,
    some_wrong_text, write_wrong, wrong_lists_are_no_sentences,
};
