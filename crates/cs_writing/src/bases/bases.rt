// Lists of tokens, each once.

ghost use Rattle.std.specs.Prelude.{◌≡◌, ◌<◌, ◌↔◌, Some, IfOk, OnErr, IsTrue, length, slice_get};
ghost use Rattle.cs_writing.specs.Bases.Bases.{IsFree, no_bases, offered};

use indexmap::IndexMap;
use std::alloc::{AllocError, Global};
use std::marker::Model;

/// Lists of tokens, at most so many and each once, in the order in which they came, each with the
/// number of the goal that it came with.
#[derive(Drop)]
pub struct Bases {
    alloc: Global,
    most: u32,
    goals: IndexMap<Vec<u16>, u64>,
}

impl Model for Bases {
    ghost use Rattle.std.specs.Prelude.{◌^◌, ◌<◌, ◌≤◌, length};
    ghost use Rattle.cs_writing.specs.Bases.Bases.{PlainBases, bases_in};

    ghost Value = { PlainBases };

    ghost view = { λ b. record { most = b.most; list = bases_in b.goals.entries } };

    ghost invariant = { λ b. (length (bases_in b.goals.entries) ≤ b.most) × (b.most < 2 ^ 32) };
}

impl Bases {
    /// No bases, and room for so many. That takes no memory.
    pub fn new(alloc: Global, most: u32) -> Bases
        ensures { result ≡ no_bases most }
    {
        Bases {
            alloc,
            most,
            goals: IndexMap::new(alloc),
        }
    }

    /// Offers the tokens of a goal. They are taken where no base has them and there is room, and then
    /// they stand last; else, and after a refusal, which is want of memory, the bases are as before.
    pub fn offer(&mut self, goal: u64, tokens: &[u16]) -> Result<bool, AllocError>
        ensures taken { IfOk result (λ taken. IsTrue taken ↔ IsFree self.old tokens.now) }
        ensures bases { IfOk result (λ taken.
            self.new ≡ offered self.old goal tokens.now taken) }
        ensures refused { OnErr result (self.new ≡ self.old) }
    {
        if self.goals.len() >= self.most as usize || self.goals.contains_key(tokens) {
            return Ok(false);
        }
        let tokens = Vec::from_slice(self.alloc, tokens)?;
        self.goals.insert(tokens, goal)?;
        Ok(true)
    }

    /// How many bases there are.
    pub fn len(&self) -> u32
        ensures { result ≡ length self.now.list }
    {
        self.goals.len() as u32
    }

    /// Whether there is no base.
    pub fn is_empty(&self) -> bool
        ensures { IsTrue result ↔ (length self.now.list ≡ 0) }
    {
        self.goals.is_empty()
    }

    /// The base at a place, counted from 0: the number of its goal and its tokens.
    pub fn get(&self, index: u32) -> (u64, &[u16])
        requires { index < length self.now.list }
        ensures { slice_get self.now.list index ≡ Some (result.0, result.1.now) }
    {
        match self.goals.get_index(index as usize) {
            Some((tokens, goal)) => (*goal, tokens),
            None => unreachable!(),
        }
    }
}
