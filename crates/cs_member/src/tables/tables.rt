// What a grammar says of its items, worked out once.

ghost use Rattle.std.specs.Prelude.{IfOk};
ghost use Rattle.cs_member.specs.Tables.Tables.{HasPlaces};
ghost use Rattle.cs_member.specs.Tables.Whole.{IsTables};

use crate::tables::descents::descents_of;
use crate::tables::empties::empties_of;
use crate::tables::fronts::{Front, fronts_of};
use crate::tables::word::Word;
use cs_grammar::Grammar;
use smallvec::SmallVec;
use std::alloc::{AllocError, Global};

// What membership needs to know of a grammar.
#[derive(Debug, Drop)]
pub(crate) struct Tables {
    // By nonterminal: a rule of an empty tree, or 0; and the round in which it was found.
    pub(crate) empties: Vec<u16>,
    pub(crate) rounds: Vec<u16>,
    // By token, by nonterminal: where rules begin with it behind symbols that have empty trees.
    pub(crate) tokens: Vec<Vec<Front>>,
    pub(crate) nonterminals: Vec<Vec<Front>>,
    // By nonterminal: what its rules begin with behind symbols that have empty trees.
    pub(crate) corners: Vec<Vec<u16>>,
    // By nonterminal: those with which its rules may begin, itself among them.
    pub(crate) descents: Vec<SmallVec<Word, 1>>,
    // By rule: how many items are before its own.
    pub(crate) bases: Vec<usize>,
    pub(crate) items: usize,
}

// By rule: how many items are before its own; and how many there are.
fn bases_of(alloc: Global, grammar: &Grammar) -> Result<(Vec<usize>, usize), AllocError>
    ensures { IfOk result (λ r. HasPlaces grammar.now r.0.items r.1) }
{
    let mut bases = Vec::new(alloc);
    let mut items = 0usize;
    for rule in grammar.rules() {
        bases.push(items)?;
        items += rule.right().len() + 1;
    }
    Ok((bases, items))
}

impl Tables {
    pub(crate) fn new(alloc: Global, grammar: &Grammar) -> Result<Tables, AllocError>
        ensures { IfOk result (IsTables grammar.now) }
    {
        let _well_formed = grammar.rules();
        let empties = empties_of(alloc, grammar)?;
        let fronts = fronts_of(alloc, grammar, &empties.rules)?;
        let descents = descents_of(alloc, &fronts.corners, grammar.nonterminals())?;
        let (bases, items) = bases_of(alloc, grammar)?;
        Ok(Tables {
            empties: empties.rules,
            rounds: empties.rounds,
            tokens: fronts.tokens,
            nonterminals: fronts.nonterminals,
            corners: fronts.corners,
            descents,
            bases,
            items,
        })
    }
}
