//! What a seat knows of its counter.

use std::collections::LinkedList;

/// What a seat knows. No value of it is made: the rule and the contracts speak of it.
pub(crate) struct View {
    /// The numbers that the seat has drawn, in the order in which it drew them.
    pub(crate) drawn: LinkedList<u32>,
    /// How many of its draws found the end.
    pub(crate) over: u64,
    /// How many workers it stands for.
    pub(crate) workers: u64,
    /// The counter's number of items.
    pub(crate) items: u64,
    /// The counter's number of workers.
    pub(crate) all: u64,
}
