// The slips that are still to be classed, one after another, each with its list.

ghost use Rattle.std.specs.Prelude.{◌≡◌, ◌≤◌, [], IfOk, length};
ghost use Rattle.cs_wrong.specs.Classes.Coming.{CanTake, Meets, Takes, TakesNext, TellsAt, all_coming};
ghost use Rattle.cs_wrong.specs.Slips.Found.{AreTokensOf, tokens_in};

use crate::classes::met::Met;
use crate::slips::{Slip, SlipList, list_of};
use cs_mutate::{Pairs, poison};
use std::alloc::{AllocError, Global};
use std::marker::Model;

// So many slips are classed at most before any is written.
const MOST: usize = 1_024;

/// A slip, what it has, whether an earlier one has the same list, and the place of the list's first poisoned pair, counted from
/// 0 in the framed list.
#[derive(Debug, Drop)]
pub(crate) struct Candidate {
    pub(crate) slip: Slip,
    pub(crate) list: SlipList,
    pub(crate) again: bool,
    pub(crate) at: Option<u32>,
}

/// Slips of which those before a place were taken, and the lists of these.
#[derive(Drop)]
pub(crate) struct Coming<'s> {
    slips: &'s [Slip],
    at: usize,
    met: Met,
}

impl<'s> Model for Coming<'s> {
    ghost use Rattle.std.specs.Prelude.{◌≤◌, drop, length, take};
    ghost use Rattle.cs_wrong.specs.Classes.Coming.{PlainComing};

    ghost Value = { PlainComing };

    ghost view = { λ c. record {
      earlier = take c.at c.slips.now;
      left = drop c.at c.slips.now;
      met = c.met;
    } };

    ghost invariant = { λ c. c.at ≤ length c.slips.now };
}

impl<'s> Coming<'s> {
    /// All of these slips.
    pub(crate) fn new(alloc: Global, slips: &'s [Slip]) -> Coming<'s>
        ensures { result ≡ all_coming slips.now }
    {
        Coming {
            slips,
            at: 0,
            met: Met::new(alloc),
        }
    }

    /// Takes the first slip away, with its list. None where there is none.
    fn next(&mut self, alloc: Global, pairs: &Pairs) -> Result<Option<Candidate>, AllocError>
        requires { CanTake pairs.now self.old }
        ensures found { IfOk result (λ found. TakesNext pairs.now self.old found self.new) }
        ensures slips { IfOk result (λ _. CanTake pairs.now self.new) }
    {
        if self.at == self.slips.len() {
            return Ok(None);
        }
        let slip = self.slips[self.at];
        let list = list_of(alloc, pairs.embeds(), slip)?;
        let again = meet_list(&mut self.met, &list)?;
        let at = place_in(pairs, &list);
        self.at += 1;
        Ok(Some(Candidate {
            slip,
            list,
            again,
            at,
        }))
    }
}

// Whether the list was met, where there is one. If it wasn't, it is from then on.
fn meet_list(met: &mut Met, list: &SlipList) -> Result<bool, AllocError>
    ensures { IfOk result (λ again. Meets met.old list.now again met.new) }
{
    match list {
        SlipList::Nothing | SlipList::Large => Ok(false),
        SlipList::Tokens(tokens) => met.meet(tokens),
    }
}

// The place of the first poisoned pair of the list, where there is a list and a pair.
fn place_in(pairs: &Pairs, list: &SlipList) -> Option<u32>
    requires tokens { AreTokensOf pairs.now.grammar list.now }
    requires few { length (tokens_in list.now) ≤ 1000000 }
    ensures { TellsAt pairs.now.grammar list.now result }
{
    match list {
        SlipList::Nothing | SlipList::Large => None,
        SlipList::Tokens(tokens) => poison(pairs, tokens),
    }
}

/// Takes the next slips: at most 1,024. None where no slip is left.
pub(crate) fn next_batch(
    alloc: Global,
    pairs: &Pairs,
    coming: &mut Coming<'_>,
) -> Result<Vec<Candidate>, AllocError>
    requires { CanTake pairs.now coming.old }
    ensures takes { IfOk result (λ batch.
        Takes pairs.now coming.old batch.items coming.new) }
    ensures slips { IfOk result (λ _. CanTake pairs.now coming.new) }
    ensures some { IfOk result (λ batch. batch.items ≡ [] → coming.old.left ≡ []) }
    ensures few { IfOk result (λ batch. length batch.items ≤ 1024) }
{
    let mut batch = Vec::new(alloc);
    for _ in 0..MOST {
        let Some(candidate) = coming.next(alloc, pairs)? else {
            return Ok(batch);
        };
        batch.push(candidate)?;
    }
    Ok(batch)
}
