// The edits of a base one after another, each with the mark whether it is negative.

ghost use Rattle.std.specs.Prelude.{◌≡◌, ◌≤◌, [], All, IfOk, OnErr, length};
ghost use Rattle.cs_deep.specs.Edits.Candidates.{LooksAhead, Takes, TakesNext, TellsAt};
ghost use Rattle.cs_grammar.specs.Grammar.{IsNumberOf};
ghost use Rattle.cs_mutate.specs.Negatives.{search_of};

use cs_choices::Operators;
use cs_mutate::{Edit, Edits, Negative, Negatives, Pairs};
use std::alloc::{AllocError, Global};
use std::marker::Model;

// So many edits are classed at most before any is written.
const MOST: usize = 1_024;

/// An edit of a base, and whether its framed result has a poisoned pair.
#[derive(Clone, Copy, Debug)]
pub(crate) struct Candidate {
    pub(crate) edit: Edit,
    pub(crate) negative: bool,
}

// What is known of the first negative among the edits that are left.
#[derive(Clone, Copy, Debug)]
pub(crate) enum Ahead {
    Unknown,
    Found(Option<Negative>),
}

/// The edits of a base that are still to be classed.
///
/// A second walk over the same edits gives the negatives alone, and looks at no more than the pairs that an edit makes.
#[derive(Debug, Drop)]
pub(crate) struct Candidates<'p> {
    edits: Edits<'p>,
    negatives: Negatives<'p>,
    ahead: Ahead,
}

impl<'p> Model for Candidates<'p> {
    ghost use Rattle.cs_deep.specs.Edits.Candidates.{AreCandidates};
    ghost use Rattle.cs_mutate.specs.Negatives.{Search};

    ghost Value = { Search };

    ghost view = { λ c. record {
      grammar = c.negatives.grammar;
      base = c.negatives.base;
      edits = c.edits;
    } };

    ghost invariant = { λ c. AreCandidates (record {
      grammar = c.negatives.grammar;
      base = c.negatives.base;
      edits = c.edits;
    }) c.ahead c.negatives };
}

impl<'p> Candidates<'p> {
    /// The edits of a base for the chosen operators.
    pub(crate) fn new(
        alloc: Global,
        pairs: &'p Pairs<'p>,
        base: &'p [u16],
        operators: Operators,
    ) -> Candidates<'p>
        requires short { length base.now ≤ 1000000 }
        requires tokens { All (IsNumberOf pairs.now.grammar.tokens) base.now }
        ensures { result ≡ search_of pairs.now.grammar base.now operators }
    {
        Candidates {
            edits: Edits::new(pairs.grammar().tokens(), base, operators),
            negatives: Negatives::new(alloc, pairs, base, operators),
            ahead: Ahead::Unknown,
        }
    }

    /// Takes the first edit away, with its mark. None where there is none. After a refusal, which is want of memory, all edits
    /// are left.
    fn next(&mut self) -> Result<Option<Candidate>, AllocError>
        ensures found { IfOk result (λ found. TakesNext self.old found self.new) }
        ensures grammar { self.new.grammar ≡ self.old.grammar }
        ensures base { self.new.base ≡ self.old.base }
    {
        let found = find_ahead(&mut self.negatives, self.ahead)?;
        self.ahead = Ahead::Found(found);
        let Some(edit) = self.edits.next() else {
            return Ok(None);
        };
        if is_at(found, &edit) {
            self.ahead = Ahead::Unknown;
            return Ok(Some(Candidate {
                edit,
                negative: true,
            }));
        }
        Ok(Some(Candidate {
            edit,
            negative: false,
        }))
    }
}

// The first negative among the edits that are left.
fn find_ahead(negatives: &mut Negatives<'_>, ahead: Ahead) -> Result<Option<Negative>, AllocError>
    ensures found { IfOk result (λ found.
        LooksAhead ahead negatives.old found negatives.new) }
    ensures grammar { negatives.new.grammar ≡ negatives.old.grammar }
    ensures base { negatives.new.base ≡ negatives.old.base }
    ensures refused { OnErr result (negatives.new.edits ≡ negatives.old.edits) }
{
    match ahead {
        Ahead::Found(found) => Ok(found),
        Ahead::Unknown => negatives.next(),
    }
}

// Whether the negative that was found is that of the edit.
fn is_at(found: Option<Negative>, edit: &Edit) -> bool
    ensures { TellsAt found edit.now result }
{
    match found {
        Some(negative) => negative.edit == *edit,
        None => false,
    }
}

/// Takes the next candidates: at most 1,024. None where no edit is left.
pub(crate) fn next_batch(
    alloc: Global,
    candidates: &mut Candidates<'_>,
) -> Result<Vec<Candidate>, AllocError>
    ensures takes { IfOk result (λ batch.
        Takes candidates.old batch.items candidates.new) }
    ensures some { IfOk result (λ batch. batch.items ≡ [] → candidates.old.edits ≡ []) }
    ensures few { IfOk result (λ batch. length batch.items ≤ 1024) }
{
    let mut batch = Vec::new(alloc);
    for _ in 0..MOST {
        let Some(candidate) = candidates.next()? else {
            return Ok(batch);
        };
        batch.push(candidate)?;
    }
    Ok(batch)
}
