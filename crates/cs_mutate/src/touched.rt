// The first pair that isn't adjacent among those that an edit touches.

ghost use Rattle.std.specs.Prelude.{◌≡◌, ◌↔◌, ◌+◌, ◌≤◌, length, slice_get, Some, All, IsTrue};
ghost use Rattle.cs_grammar.specs.Grammar.{IsNumberOf};
ghost use Rattle.cs_grammar.specs.Sentence.{framed};
ghost use Rattle.cs_mutate.specs.Edit.{Fits, patched, edited};
ghost use Rattle.cs_mutate.specs.Poison.{HasNoPoison, IsPoisonedAt, TellsPair};
ghost use Rattle.cs_mutate.specs.Negatives.{IsNegative};
ghost use Rattle.cs_mutate.specs.Kept.{IsOnly};
ghost use Rattle.cs_mutate.specs.Keeping.{TellsOnly};

use crate::edit::Edit;
use crate::negative::Negative;
use crate::poisoning::{PoisonedPair, poison_put, sound_behind};
use cs_grammar::Mark;
use cs_pairs::Pairs;

// The first pair of the framed result of an edit that isn't adjacent. All pairs of the framed list itself are adjacent, so only
// those are looked at that the edit makes.
pub(crate) fn poison_touched(pairs: &Pairs, base: &[u16], edit: &Edit) -> Option<PoisonedPair>
    requires sound { HasNoPoison pairs.now.grammar (framed base.now) }
    requires short { length base.now ≤ 1000000 }
    requires tokens { All (IsNumberOf pairs.now.grammar.tokens) base.now }
    requires fits { Fits (length base.now) pairs.now.grammar.tokens edit.now }
    ensures { TellsPair pairs.now.grammar (framed (edited base.now edit.now)) result }
{
    match *edit {
        Edit::Delete(place) => poison_seam(pairs, base, place as usize, &[], 1),
        Edit::Insert(place, token) => poison_seam(pairs, base, place as usize, &[token], 0),
        Edit::Replace(place, token) => poison_seam(pairs, base, place as usize, &[token], 1),
        Edit::Swap(place) => {
            let at = place as usize;
            poison_seam(pairs, base, at, &[base[at + 1], base[at]], 2)
        }
    }
}

// The same where other tokens stand in place of so many from a place on.
fn poison_seam(
    pairs: &Pairs,
    base: &[u16],
    place: usize,
    put: &[u16],
    gone: usize,
) -> Option<PoisonedPair>
    requires sound { HasNoPoison pairs.now.grammar (framed base.now) }
    requires short { length base.now ≤ 1000000 }
    requires tokens { All (IsNumberOf pairs.now.grammar.tokens) base.now }
    requires inside { place + gone ≤ length base.now }
    requires put { All (IsNumberOf pairs.now.grammar.tokens) put.now }
    requires few { length put.now ≤ 2 }
    ensures { TellsPair pairs.now.grammar (framed (patched base.now place put.now gone)) result }
{
    let left = mark_at(base, place);
    let right = mark_at(base, place + gone + 1);
    match poison_put(pairs, left, put, right) {
        Some(found) => Some(PoisonedPair {
            at: found.at + place as u32,
            left: found.left,
            right: found.right,
        }),
        None => None,
    }
}

// Whether the poisoned pair of an edit's framed result is the only one. All pairs of the framed list itself are adjacent, so only
// those are looked at that the edit makes.
pub(crate) fn only_touched(pairs: &Pairs, base: &[u16], negative: &Negative) -> bool
    requires sound { HasNoPoison pairs.now.grammar (framed base.now) }
    requires short { length base.now ≤ 1000000 }
    requires tokens { All (IsNumberOf pairs.now.grammar.tokens) base.now }
    requires fits { Fits (length base.now) pairs.now.grammar.tokens negative.now.edit }
    requires negative { IsNegative pairs.now.grammar base.now negative.now }
    ensures { IsTrue result ↔ IsOnly pairs.now.grammar base.now negative.now }
{
    let at = negative.at as usize;
    match negative.edit {
        Edit::Delete(place) => only_seam(pairs, base, place as usize, &[], 1, at),
        Edit::Insert(place, token) => only_seam(pairs, base, place as usize, &[token], 0, at),
        Edit::Replace(place, token) => only_seam(pairs, base, place as usize, &[token], 1, at),
        Edit::Swap(place) => {
            let first = place as usize;
            only_seam(pairs, base, first, &[base[first + 1], base[first]], 2, at)
        }
    }
}

// The same where other tokens stand in place of so many from a place on.
fn only_seam(pairs: &Pairs, base: &[u16], place: usize, put: &[u16], gone: usize, at: usize) -> bool
    requires sound { HasNoPoison pairs.now.grammar (framed base.now) }
    requires short { length base.now ≤ 1000000 }
    requires tokens { All (IsNumberOf pairs.now.grammar.tokens) base.now }
    requires inside { place + gone ≤ length base.now }
    requires put { All (IsNumberOf pairs.now.grammar.tokens) put.now }
    requires few { length put.now ≤ 2 }
    requires first { IsPoisonedAt pairs.now.grammar
        (framed (patched base.now place put.now gone)) at }
    ensures { TellsOnly pairs.now.grammar
        (framed (patched base.now place put.now gone)) at result }
{
    let right = mark_at(base, place + gone + 1);
    sound_behind(pairs, put, at - place, right)
}

// What stands at a place of the framed list.
fn mark_at(base: &[u16], at: usize) -> Mark
    requires { at ≤ length base.now + 1 }
    ensures { slice_get (framed base.now) at ≡ Some result }
{
    if at == 0 {
        Mark::Begin
    } else if at <= base.len() {
        Mark::Token(base[at - 1])
    } else {
        Mark::End
    }
}
