//! The renderings of lists of tokens that are near a list whose text is known, with a scan around what differs alone; and tokens
//! whose lists have a text without any scan.
//!
//! The layers above prepare a list of tokens by `Prepared::new`, and render those that are near it by `render`, which answers what
//! `crate::rendering::render` does: the text in three parts, whose middle is in a buffer of the caller. They ask `Apart`, made of what
//! lists are rendered by, whether a token is known to stand apart: where each token of a list is, the list has a text.
//!
//! Meaning: `specs/Splice/Spliced.antt` (what an answer says), `specs/Splice/Apart.antt` (that tokens that stand apart have
//! lexemes, and that their lists scan back). Working words of proofs: `specs/Splice/Settled.antt` (what the first bytes of a
//! text settle of its scan), `specs/Splice/Marks.antt`, `specs/Splice/Marked.antt`, `specs/Splice/Middle.antt`,
//! `specs/Splice/Lists.antt`, `IsTextNear` and `IfTold` of `specs/Splice/Spliced.antt`, and `IsTakenFirst`, `IsPassedBefore`,
//! `StandsApart` and `MarkApart` of `specs/Splice/Apart.antt`.

mod apart;
mod common;
mod marked;
mod marks;
mod middle;
mod parts;
mod prepared;
mod spliced;
mod step;

pub use apart::Apart;
pub use prepared::Prepared;
pub use spliced::Spliced;
