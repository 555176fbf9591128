//! The manifest of a plan, written to an output: goals batch by batch, then the negatives of each base.
//!
//! The parts, from the bottom up; none stands on one behind it:
//!
//! - `bases`: the bases of a manifest: lists of tokens, each once, in the order in which they came.
//! - `mutants`: the negatives of a base, made one after another and written to a manifest.
//! - `plan`: the entries of a manifest, made batch by batch: each goal's verdict, the tokens of its derivation, and
//!   what came of their rendering, which several workers share.
//! - `writing`: the manifest of a plan, written to an output as its entries are made.
//!
//! # What it is for
//!
//! The layer above makes a `Plan` of files and choices, and gives it with an output to `write_out`.
//!
//! # What a contract sees
//!
//! Of an output, what it took, its faults and its room. The file of each part says which files of its folder of
//! `specs/` are meaning.
//!
//! # What is proved
//!
//! Ok means that the output took exactly the manifest of the plan in its format, and a failure that it took a prefix of
//! it and that faults rose; an output with room for it takes it without a fault. So it is for each number of workers.
//!
//! # What is only tested
//!
//! That the calls answer where memory is ample, and worked manifests: by `test_writing` and `test_manifest`. How many
//! workers share a batch isn't said.
#![tactic(auto)]

mod bases;
mod mutants;
mod plan;
mod writing;

pub use bases::{Bases, bases_come_by_offers};
pub use mutants::{MadeNegative, Maker, Tools};
pub use plan::{Made, Means, Mutation, Plan, PlanForm, next_entries};
pub use writing::write_out;
