//! The lines of chains without texts, put together of parts that many chains share.
//!
//! Chains that differ in the inner rule alone share [`FrameLines`]; the inner nodes of chains, by their rules, are [`Cores`]. The layer
//! above makes a [`Row`] of both for each chain of a batch by `rows_of`, and writes the rows.
//!
//! All files of `specs/Rows/` have working words of proofs: `Around` (the tokens of a chain's tree in three parts), `Parts` (parts of
//! lines), `Rows` (chains whose lines are put together).

mod around;
mod cores;
mod frames;
mod parts;
mod rows;

pub(crate) use cores::Cores;
pub(crate) use frames::FrameLines;
pub(crate) use rows::{Row, rows_of, write_rows};
