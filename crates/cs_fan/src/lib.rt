//! Workers that draw the numbers of items from one shared counter, and work that is shared out among them.
//!
//! # What it is for
//!
//! The layers above say what is to be done to an item by an implementation of [`Work`], make a [`Counter`] of as many
//! items as they have and for as many workers as they want, and lend it with its [`Seat`] to [`fan`], which answers
//! what one worker would have answered. What a worker does before it works on an item is a [`Gate`]; [`OpenGate`] does
//! nothing. The threads and the gate go from call to call as one [`Crew`].
//!
//! They may also hand out seats themselves, by `split`, `draw` and `join`.
//!
//! # What a contract sees
//!
//! Of a counter and a seat, their views. Of the files of `specs/`, these say what is meant: `Numbers` (lists that have
//! each number once), `Seen` and `Seats` (what contracts see of a counter and of a seat, and say of them), `Rule` (the
//! counter's rule, and what each step does). `Answers` and `Fields` have working words of proofs.
//!
//! # What is proved
//!
//! The answers are the items' answers in the items' order, for every number of workers. The numbers of a seat differ
//! from each other, and a seat that stands for all workers and has seen the end has drawn each number below the items
//! once, whatever the other seats did meanwhile.
//!
//! # What is only tested
//!
//! That two threads ran, that the gate was entered, and that a worker works on an item before it draws the next number:
//! by `test_writing::workers`.
#![tactic(auto)]

mod counter;
mod fans;
mod rule;
mod view;
mod work;

pub use counter::{Counter, Seat};
pub use fans::fan;
pub use work::{Crew, Gate, OpenGate, Work};
