// Membership as work on lists.

use crate::membership::membership::Recognizer;
use cs_fan::Work;
use std::alloc::{AllocError, Global};

/// Whether lists of tokens are sentences of a recognizer's grammar.
#[derive(Clone, Copy)]
pub struct MemberWork<'a> {
    pub recognizer: &'a Recognizer<'a>,
}

/// The work takes the lists that `Recognizer::accepts` can be called with, and a list's answer is that call's.
impl<'a> Work<Vec<u16>, bool> for MemberWork<'a> {
    ghost use Rattle.cs_member.specs.Membership.Membership.{TakesTokens, TellsMembership};

    ghost takes = { λ work tokens. TakesTokens work.recognizer.now tokens.items };

    ghost answers = { λ work tokens inside. TellsMembership work.recognizer.now tokens.items inside };

    fn one(&self, alloc: Global, item: &Vec<u16>) -> Result<bool, AllocError> {
        self.recognizer.accepts(alloc, item)
    }
}
