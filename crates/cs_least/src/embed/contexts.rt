// Contexts that are kept for when they are asked for again.

ghost use Rattle.std.specs.Prelude.{◌≡◌, IfOk, IfSome};
ghost use Rattle.cs_grammar.specs.Grammar.{IsNumberOf};
ghost use Rattle.cs_grammar.specs.Weights.{Weighed};
ghost use Rattle.cs_least.specs.Embed.Around.{HasLeastContext};
ghost use Rattle.cs_least.specs.Embed.Contexts.{AreContextsOf, IsAroundIn, KeepsContexts, KeepsOthers};

use crate::embed::context::Context;
use crate::embed::embeds::Embeds;
use std::alloc::AllocError;

// So many contexts are kept at most.
const SLOTS: usize = 64;

/// The chosen context of a nonterminal.
#[derive(Debug, Drop)]
pub struct Around {
    pub nonterminal: u16,
    pub context: Context,
}

/// Chosen contexts that were made, for when they are asked for again: 64 at most, and of nonterminals whose numbers have
/// one remainder by 64 the last one.
#[derive(Debug, Drop)]
pub struct Contexts {
    slots: Vec<Option<Around>>,
}

fn slot_of(nonterminal: u16) -> usize {
    nonterminal as usize % SLOTS
}

impl Contexts {
    /// No contexts, and no room for any: none is kept until `make_room`.
    pub fn new(embeds: &Embeds) -> Contexts
        ensures { AreContextsOf embeds.now result }
    {
        Contexts {
            slots: Vec::new(embeds.allocator()),
        }
    }

    /// The chosen context of a nonterminal whose least context is within the limit. It is kept no more: `keep` keeps it
    /// again.
    pub fn take(&mut self, embeds: &Embeds, nonterminal: u16) -> Result<Around, AllocError>
        requires contexts { AreContextsOf embeds.now self.old }
        requires nonterminal { IsNumberOf embeds.now.grammar.nonterminals nonterminal }
        requires least { HasLeastContext embeds.now.weights embeds.now.grammar nonterminal }
        ensures nonterminal { IfOk result (λ around. around.nonterminal ≡ nonterminal) }
        ensures chosen { IfOk result (IsAroundIn embeds.now) }
        ensures contexts { AreContextsOf embeds.now self.new }
    {
        if let Some(around) = self.take_kept(nonterminal) {
            return Ok(around);
        }
        let context = embeds.around(nonterminal)?;
        Ok(Around {
            nonterminal,
            context,
        })
    }

    // What is kept of this nonterminal. Its slot is empty then.
    fn take_kept(&mut self, nonterminal: u16) -> Option<Around>
        ensures nonterminal { IfSome result (λ around. around.nonterminal ≡ nonterminal) }
        ensures taken { KeepsOthers self.old result self.new }
    {
        let slot = slot_of(nonterminal);
        if slot >= self.slots.len() {
            return None;
        }
        let around = self.slots[slot].take()?;
        if around.nonterminal == nonterminal {
            Some(around)
        } else {
            None
        }
    }

    /// Keeps a chosen context, where room was made for it.
    pub fn keep(&mut self, around: Around)
        ensures { KeepsContexts around self.old self.new }
    {
        let slot = slot_of(around.nonterminal);
        if slot < self.slots.len() {
            self.slots[slot] = Some(around);
        }
    }

    /// Makes room for contexts to be kept, where there is none yet.
    pub fn make_room(&mut self) -> Result<(), AllocError>
        ensures { (v : Weighed) → AreContextsOf v self.old → AreContextsOf v self.new }
    {
        for _ in self.slots.len()..SLOTS {
            self.slots.push(None)?;
        }
        Ok(())
    }
}
