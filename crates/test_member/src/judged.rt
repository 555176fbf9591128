// What a recognizer says of a list, beside what is wanted.

ghost use Rattle.std.specs.Prelude.{◌≤◌, All, length};
ghost use Rattle.cs_grammar.specs.Grammar.{IsNumberOf};

use cs_grammar::{Derivation, ExpandError, Grammar, expand};
use cs_member::{Membership, Recognizer};
use std::alloc::{AllocError, Global};

// Whether the derivation, which is not a long one, yields the list.
fn is_yield(
    alloc: Global,
    grammar: &Grammar,
    derivation: &Derivation,
    list: &[u16],
) -> Result<bool, AllocError> {
    if derivation.rules().len() > 1_000_000 {
        return Ok(false);
    }
    match expand(alloc, grammar, derivation) {
        Ok(tokens) => Ok(tokens.as_slice() == list),
        Err(ExpandError::Memory) => Err(AllocError),
        Err(_) => Ok(false),
    }
}

/// Whether both calls say of a list what is wanted, and a derivation yields it.
pub(crate) fn is_judged(
    alloc: Global,
    grammar: &Grammar,
    recognizer: &Recognizer<'_>,
    list: &[u16],
    inside: bool,
) -> Result<bool, AllocError>
    requires few { length list.now ≤ 2000 }
    requires tokens { All (IsNumberOf recognizer.now.tokens) list.now }
{
    if recognizer.accepts(alloc, list)? != inside {
        return Ok(false);
    }
    match recognizer.member(alloc, list)? {
        Membership::Inside(derivation) => {
            Ok(inside && is_yield(alloc, grammar, &derivation, list)?)
        }
        Membership::Outside => Ok(!inside),
    }
}
