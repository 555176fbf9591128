//! The kind of an action of a lex rule: what the rule gives where it matches.
//!
//! The layer above calls `action_kind` with the bytes of an action, and looks the names up among the tokens in use.
//!
//! Meaning, in `specs/Actions/`: `Kinds` (which action has which kind), over `Gaps` (what may stand between parts), `Marks` (comments
//! that say a kind) and `Returns` (what stands behind `return`); `Laws`. `Views` and `MarkViews` are working words of the proofs.

mod gap;
mod kind;
mod laws;
mod mark;
mod named;
mod returns;
mod sign;
mod words;

pub use kind::{ActionKind, action_kind};
pub use laws::one_kind;
