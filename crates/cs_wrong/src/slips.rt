//! The slips of a grammar's rules, and the list of each.
//!
//! A [`Slip`] drops, doubles or exchanges a symbol of one rule. [`slips_of`] gives those of the chosen kinds, in order. [`list_of`]
//! gives the [`SlipList`] of one: the tokens of the changed rule in a least context, where each symbol has its least tree.
//!
//! Of the files of `specs/Slips/` these say what is meant: `Slips` (which there are, and in which order) and `Lists` (the list of
//! one). `Put`, `Walk` and `Found` have working words of proofs.

mod lists;
mod slip;
mod slips;
mod walk;

pub use lists::{SlipList, list_of};
pub use slip::{Change, Slip};
pub use slips::slips_of;
