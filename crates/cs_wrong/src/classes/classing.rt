// The class of a list.

ghost use Rattle.std.specs.Prelude.{◌≡◌, ◌≤◌, ◌<◌, ◌+◌, All, IfOk, Some, length, slice_get};
ghost use Rattle.cs_grammar.specs.Grammar.{IsNumberOf};
ghost use Rattle.cs_grammar.specs.Sentence.{framed};
ghost use Rattle.cs_mutate.specs.Poison.{TellsPlace};
ghost use Rattle.cs_wrong.specs.Classes.Classes.{IsListClass};

use crate::classes::class::SlipClass;
use cs_grammar::Mark;
use cs_member::{MOST_LENGTH, Recognizer};
use std::alloc::{AllocError, Global};

// The mark at a place of a framed list, counted from 0.
fn mark_at(list: &[u16], place: usize) -> Mark
    requires { place < length list.now + 2 }
    ensures { slice_get (framed list.now) place ≡ Some result }
{
    if place == 0 {
        return Mark::Begin;
    }
    if place <= list.len() {
        Mark::Token(list[place - 1])
    } else {
        Mark::End
    }
}

/// The class of a list that no earlier slip has, by the place of its first poisoned pair.
pub(crate) fn class_of(
    alloc: Global,
    recognizer: &Recognizer,
    list: &[u16],
    found: Option<u32>,
) -> Result<SlipClass, AllocError>
    requires tokens { All (IsNumberOf recognizer.now.tokens) list.now }
    requires few { length list.now ≤ 1000000 }
    requires found { TellsPlace recognizer.now (framed list.now) found }
    ensures { IfOk result (IsListClass recognizer.now list.now) }
{
    if let Some(at) = found {
        let left = mark_at(list, at as usize);
        let right = mark_at(list, at as usize + 1);
        return Ok(SlipClass::Pair { left, right, at });
    }
    if list.len() > MOST_LENGTH {
        return Ok(SlipClass::Long);
    }
    if recognizer.accepts(alloc, list)? {
        Ok(SlipClass::Sentence)
    } else {
        Ok(SlipClass::Outside)
    }
}
