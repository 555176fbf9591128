// The bases of a suite, without its texts.

ghost use Rattle.std.specs.Prelude.{◌≡◌, ◌≤◌, ◌+◌, IfOk, OnOk, length};
ghost use Rattle.cs_deep.specs.Edits.Bases.{GivesBases, KeepsPositive};
ghost use Rattle.cs_writing.specs.Plan.Placing.{HasDerivation};
ghost use Rattle.cs_io.specs.Faults.{greatest};

use cs_grammar::{Grammar, yield_of};
use cs_verdicts::{Positive, Positives, Verdict};
use cs_writing::Bases;
use std::alloc::{AllocError, Global};

/// The bases of the goals that are left: of each feasible goal the tokens of its derivation, at most so many and each once.
pub(crate) fn bases_of(
    alloc: Global,
    grammar: &Grammar,
    most: u32,
    positives: &mut Positives<'_>,
) -> Result<Bases, AllocError>
    requires grammar { positives.old.tables.grammar ≡ grammar.now }
    requires few { length positives.old.goals ≤ greatest }
    ensures { IfOk result (GivesBases most positives.old) }
{
    let mut bases = Bases::new(alloc, most);
    let mut number = 0u64;
    'goals: loop {
        match positives.next(alloc)? {
            None => return Ok(bases),
            Some(positive) => {
                keep(alloc, grammar, number, &positive, &mut bases)?;
                number += 1;
            }
        }
    }
}

// Keeps the tokens of a goal behind so many, where it is feasible and they are a base.
fn keep(
    alloc: Global,
    grammar: &Grammar,
    before: u64,
    positive: &Positive,
    bases: &mut Bases,
) -> Result<(), AllocError>
    requires has { HasDerivation grammar.now positive.now.verdict }
    requires few { before + 1 ≤ greatest }
    ensures { OnOk result (KeepsPositive grammar.now before positive.now bases.old bases.new) }
{
    match &positive.verdict {
        Verdict::Feasible { derivation, .. } => {
            let tokens = yield_of(alloc, grammar, derivation)?;
            bases.offer(before + 1, &tokens)?;
            Ok(())
        }
        Verdict::Infeasible => Ok(()),
        Verdict::Large => Ok(()),
    }
}
