//! Membership: whether a list of tokens is a sentence of a grammar, with a derivation of it.
//!
//! The parts, from the bottom up; none stands on one behind it:
//!
//! - `tables`: what a grammar says of its items, worked out once for all lists.
//! - `chart`: the chart of a list: what is found at each position.
//! - `derivation`: the derivation of a list, by the way back through its chart.
//! - `membership`: the answer: a derivation, or that there is none; for one list, for many, and by workers.
//!
//! # What it is for
//!
//! The layers above hand in a grammar and a list of its tokens, and get by `member` a derivation whose yield is the
//! list, or learn that there is none. For many lists of one grammar they make a [`Recognizer`] once, and [`MemberWork`]
//! judges lists as work that workers share. Any grammar will do: left recursion, empty rules, cycles, ambiguity.
//!
//! The way is Earley's (1970, "An efficient context-free parsing algorithm") with rows of origins: at each position
//! each item, which is a rule and a place in it, has the set of positions from which its symbols so far have trees up
//! to here.
//!
//! # What a contract sees
//!
//! A grammar, a list and an answer. Meaning: `specs/Membership/Membership`. The other files of `specs/` have working
//! words of proofs.
//!
//! # What is proved
//!
//! A list is inside with a derivation that yields it, or outside, exactly where no tree of the start symbol yields it.
//! That is so of a [`Recognizer`] too, and of workers.
//!
//! # What is only tested
//!
//! That the calls answer where memory is ample; all lists up to a length against all sentences of small grammars, long
//! lists, and workers: by `test_member`. Which of several derivations is given isn't said.
#![tactic(auto)]

mod chart;
mod derivation;
mod membership;
mod tables;

pub use membership::{MemberWork, Membership, Recognizer, member};

/// The most tokens of a list.
pub const MOST_LENGTH: usize = 2_000;
