//! Least ways over fixed steps: what the least way to each node costs, at which source it begins, and by which step it
//! reaches the node.
//!
//! The layer above makes `Steps` once, and then asks for `least_ways` from any list of sources, under any limit. A way is a
//! source and a chain of steps; of the least ways to a node the one whose source stands first in the list is taken, so a
//! source carries a choice along. By `first_steps` the layer above learns the first of the steps by which a least way
//! reaches each node. `turned` gives the steps in the other direction.
//!
//! `specs/Ways/Ways` and `specs/Ways/Turned` say what is meant. The other files of `specs/Ways/` have working words of proofs.

mod candidate;
mod firsts;
mod reach;
mod search;
mod step;
mod steps;

pub use firsts::first_steps;
pub use reach::Reach;
pub use search::least_ways;
pub use step::{Source, Step};
pub use steps::{Steps, turned};
