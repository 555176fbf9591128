//! The chart of a list of tokens: what is found at each position.
//!
//! The layer above asks a [`Question`], which is a grammar with its tables and a list, and gets one [`Position`] more than the list
//! has tokens by `chart_of`. A position has rows, each an item with the positions from which its symbols so far have trees up
//! to here; which nonterminals are expected; and the spans that end here. It is made as a `Now`.
//!
//! All files of `specs/Chart/` have working words of proofs: `Now` (the position that is being made), `Buckets` (rows by number),
//! `Chart` and `Closed` (positions as sets, and what follows from what stands there), `Made` (what charts are made of), `Asked`
//! (what contracts say of these).

mod buckets;
mod chart;
mod now;

pub(crate) use chart::{Position, Row, chart_of};
pub(crate) use now::{Question, Span};
