//! Membership: whether a list of tokens is a sentence, with a derivation of it.
//!
//! The layers above call [`member`], or make a [`Recognizer`] once for many lists of one grammar; [`MemberWork`] judges lists as work
//! that workers share.
//!
//! Meaning: `specs/Membership/Membership`. Working words of proofs: `Asked` (what contracts say of the answer).

mod membership;
mod sharing;
mod work;

pub use membership::{Membership, Recognizer, member};
pub use work::MemberWork;
