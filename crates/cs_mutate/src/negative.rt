// The negatives of a list, one after another.

ghost use Rattle.std.specs.Prelude.{◌≡◌, ◌↔◌, ◌≤◌, length, All, IfSome, IfOk, IsTrue, OnErr};
ghost use Rattle.cs_grammar.specs.Grammar.{IsNumberOf};
ghost use Rattle.cs_grammar.specs.Sentence.{framed};
ghost use Rattle.cs_goals.specs.Goal.{IsLeft};
ghost use Rattle.cs_mutate.specs.Edit.{Fits, edited};
ghost use Rattle.cs_mutate.specs.Poison.{HasNoPoison, TellsPair};
ghost use Rattle.cs_mutate.specs.Negatives.{Finds, search_of, FindsNext, FitsBase, IsNegative};
ghost use Rattle.cs_mutate.specs.Kept.{IsOnly};

use crate::edit::{Edit, apply};
use crate::edits::Edits;
use crate::poisoning::{PoisonedPair, poison, poison_between, sound_behind};
use crate::touched::{only_touched, poison_touched};
use cs_choices::Operators;
use cs_grammar::Mark;
use cs_pairs::Pairs;
use std::alloc::{AllocError, Global};
use std::marker::Model;

/// An edit of a list with the first pair of its framed result that isn't adjacent, and the place of that pair.
#[derive(Clone, Copy, Debug, PartialEq, Eq)]
pub struct Negative {
    /// The edit.
    pub edit: Edit,
    /// The pair's first mark.
    pub left: Mark,
    /// The pair's second mark.
    pub right: Mark,
    /// The place of the first mark in the framed list, counted from 0.
    pub at: u32,
}

/// The edits of a list that are still to be looked at for negatives, by the pairs of a grammar.
///
/// Where each pair of the framed list is adjacent, only the pairs that an edit makes are looked at.
#[derive(Debug, Drop)]
pub struct Negatives<'p> {
    alloc: Global,
    pairs: &'p Pairs<'p>,
    base: &'p [u16],
    edits: Edits<'p>,
    sound: bool,
}

impl<'p> Model for Negatives<'p> {
    ghost use Rattle.cs_mutate.specs.Negatives.{Search, IsSearch};

    ghost Value = { Search };

    ghost view = { λ n. record { grammar = n.pairs.now.grammar; base = n.base.now; edits = n.edits } };

    ghost invariant = { λ n. IsSearch n.sound
        (record { grammar = n.pairs.now.grammar; base = n.base.now; edits = n.edits }) };
}

impl<'p> Negatives<'p> {
    /// The negatives of a list for the chosen operators.
    pub fn new(
        alloc: Global,
        pairs: &'p Pairs<'p>,
        base: &'p [u16],
        operators: Operators,
    ) -> Negatives<'p>
        requires short { length base.now ≤ 1000000 }
        requires tokens { All (IsNumberOf pairs.now.grammar.tokens) base.now }
        ensures { result ≡ search_of pairs.now.grammar base.now operators }
    {
        Negatives {
            alloc,
            pairs,
            base,
            edits: Edits::new(pairs.grammar().tokens(), base, operators),
            sound: poison(pairs, base).is_none(),
        }
    }

    /// Takes the edits away up to the first negative. None where each edit that is left is harmless; then none is left, and
    /// there is none from then on. After a refusal, which is want of memory, all are left.
    #[inline(always)]
    pub fn next(&mut self) -> Result<Option<Negative>, AllocError>
        ensures found { IfOk result (λ found. FindsNext self.old found self.new) }
        ensures fits { IfOk result (λ found. IfSome found (λ n. FitsBase self.old n.edit)) }
        ensures left { IfOk result (λ found.
            IfSome found (λ n. IsLeft self.old.grammar.tokens n.left)) }
        ensures grammar { self.new.grammar ≡ self.old.grammar }
        ensures base { self.new.base ≡ self.old.base }
        ensures refused { OnErr result (self.new.edits ≡ self.old.edits) }
    {
        if self.sound {
            return Ok(next_touched(self.pairs, self.base, &mut self.edits));
        }
        let mut edits = self.edits.copied();
        let found = next_whole(self.alloc, self.pairs, self.base, &mut edits)?;
        self.edits = edits;
        Ok(found)
    }

    /// Whether a negative's poisoned pair is the only one of its framed result.
    pub fn is_only(&self, negative: &Negative) -> Result<bool, AllocError>
        requires negative { IsNegative self.now.grammar self.now.base negative.now }
        requires fits { FitsBase self.now negative.now.edit }
        ensures { IfOk result (λ only.
            IsTrue only ↔ IsOnly self.now.grammar self.now.base negative.now) }
    {
        if self.sound {
            return Ok(only_touched(self.pairs, self.base, negative));
        }
        only_edited(self.alloc, self.pairs, self.base, negative)
    }
}

// An edit and the first pair of its framed result that isn't adjacent.
fn negative_of(edit: Edit, found: PoisonedPair) -> Negative
    ensures { result ≡ record {
      edit = edit;
      left = found.left;
      right = found.right;
      at = found.at;
    } }
{
    Negative {
        edit,
        left: found.left,
        right: found.right,
        at: found.at,
    }
}

// The first negative of these edits, which are taken away up to it. All pairs of the framed list are adjacent, so only those are
// looked at that the edits make, without memory.
fn next_touched(pairs: &Pairs, base: &[u16], edits: &mut Edits) -> Option<Negative>
    requires sound { HasNoPoison pairs.now.grammar (framed base.now) }
    requires short { length base.now ≤ 1000000 }
    requires tokens { All (IsNumberOf pairs.now.grammar.tokens) base.now }
    requires fits { All (Fits (length base.now) pairs.now.grammar.tokens) edits.old }
    ensures { Finds pairs.now.grammar base.now edits.old result edits.new }
{
    while let Some(edit) = edits.next() {
        if let Some(found) = poison_touched(pairs, base, &edit) {
            return Some(negative_of(edit, found));
        }
    }
    None
}

// The same of any list, whose edited lists are read whole.
#[inline(never)]
fn next_whole(
    alloc: Global,
    pairs: &Pairs,
    base: &[u16],
    edits: &mut Edits,
) -> Result<Option<Negative>, AllocError>
    requires short { length base.now ≤ 1000000 }
    requires tokens { All (IsNumberOf pairs.now.grammar.tokens) base.now }
    requires fits { All (Fits (length base.now) pairs.now.grammar.tokens) edits.old }
    ensures { IfOk result (λ found. Finds pairs.now.grammar base.now edits.old found edits.new) }
{
    while let Some(edit) = edits.next() {
        if let Some(found) = poison_edited(alloc, pairs, base, &edit)? {
            return Ok(Some(negative_of(edit, found)));
        }
    }
    Ok(None)
}

// The first pair of the framed result of an edit that isn't adjacent.
fn poison_edited(
    alloc: Global,
    pairs: &Pairs,
    base: &[u16],
    edit: &Edit,
) -> Result<Option<PoisonedPair>, AllocError>
    requires short { length base.now ≤ 1000000 }
    requires tokens { All (IsNumberOf pairs.now.grammar.tokens) base.now }
    requires fits { Fits (length base.now) pairs.now.grammar.tokens edit.now }
    ensures { IfOk result (TellsPair pairs.now.grammar (framed (edited base.now edit.now))) }
{
    let list = apply(alloc, base, edit)?;
    Ok(poison_between(pairs, Mark::Begin, &list, Mark::End))
}

// Whether the poisoned pair is the only one of the framed result, which is read behind it.
fn only_edited(
    alloc: Global,
    pairs: &Pairs,
    base: &[u16],
    negative: &Negative,
) -> Result<bool, AllocError>
    requires short { length base.now ≤ 1000000 }
    requires tokens { All (IsNumberOf pairs.now.grammar.tokens) base.now }
    requires fits { Fits (length base.now) pairs.now.grammar.tokens negative.now.edit }
    requires negative { IsNegative pairs.now.grammar base.now negative.now }
    ensures { IfOk result (λ only. IsTrue only ↔ IsOnly pairs.now.grammar base.now negative.now) }
{
    let list = apply(alloc, base, &negative.edit)?;
    Ok(sound_behind(pairs, &list, negative.at as usize, Mark::End))
}
