//! Directed graphs: an order of the nodes in which each stands behind its successors, and the strongly connected
//! components.
//!
//! # What it is for
//!
//! The layer above hands a graph in as a list: for each node, from 0, the nodes to which it has an edge. By `order` it
//! gets an order in which it can work over the nodes, or learns that some node reaches itself; by `components` it finds
//! out which do.
//!
//! # What a contract sees
//!
//! Lists of nodes. Meaning, in `specs/`: `Graph` (edges, paths, orders, components). `Marks`, `Order`, `Walk` and
//! `Groups` are working words of proofs.
//!
//! # What is proved
//!
//! There is an order with each node once exactly where no node reaches itself. Two nodes have the same number of a
//! component exactly where each leads to the other. The nodes of an order weigh together at most what all nodes weigh.
//! The laws are functions that do nothing.
//!
//! # What is only tested
//!
//! That the calls answer where memory is ample, and what they answer to worked rows: by `test_scanner::scanning`.
#![tactic(auto)]

mod component;
mod fits;
mod laws;
mod marks;
mod ordering;

pub use component::components;
pub use fits::is_graph;
pub use laws::{ordered_without_cycle, weighed_once};
pub use ordering::order;
