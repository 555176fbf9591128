//! The entries of a manifest, made batch by batch: each goal's verdict, the tokens of its derivation, and what came of
//! their rendering, which several workers share.
//!
//! The layer above makes a [`Plan`] of a yacc file, the criteria and the form of the manifest: a suite has [`Means`], what
//! texts are rendered with, the [`Mutation`] that negatives are made by, and what sizes count; and in the second format
//! the closed sets of the grammar. The plan's `head` begins the manifest. [`next_entries`] gives what is [`Made`] of the
//! next goals, until nothing comes. In the second format it places their derivations among the cases, and only the tokens
//! of new cases are rendered. A [`Made`] lends itself as the entry of its case, where that is new, and as that of its
//! goal, and its tokens as those of a base.
//!
//! Meaning: `specs/Plan/Plans` (what a plan chooses, and which text is its manifest), `Made` (what is made of a goal, and what
//! its entries say), `Entries` (which of these come next). Working words of proofs: `Steps`, `Placing`. The lemmas of
//! `proofs/OnPlan/Telling` are for the layer above.

mod entries;
mod joining;
mod made;
mod placing;
mod plan;
mod texts;

pub use entries::next_entries;
pub(crate) use joining::{Side, put_text};
pub use made::Made;
pub use plan::{Means, Mutation, Plan, PlanForm};
