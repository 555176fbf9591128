// Which derivations meet a goal.

ghost use Rattle.std.specs.Prelude.{◌↔◌, IsTrue, IfOk, OnOk};
ghost use Rattle.cs_grammar.specs.Stack.{AreOnTop};
ghost use Rattle.cs_grammar.specs.Tree.{IsDerivationOf};
ghost use Rattle.cs_goals.specs.Goal.{context_goal};
ghost use Rattle.cs_goals.specs.Meets.{IsMeeting};
ghost use Rattle.cs_goals.specs.Awaits.{awaits};

use crate::goal::{Goal, Occurrence};
use crate::neighbours::has_pair;
use cs_grammar::{Derivation, Grammar, Symbol, yield_of};
use std::alloc::{AllocError, Global};

/// Whether the tree of a derivation of the start symbol meets the goal. A code has one tree. The code is read once, with
/// a stack in memory.
pub fn meets(
    alloc: Global,
    grammar: &Grammar,
    goal: &Goal,
    derivation: &Derivation,
) -> Result<bool, AllocError>
    requires { IsDerivationOf grammar.now derivation.now }
    ensures { IfOk result (λ met. IsTrue met ↔ IsMeeting grammar.now goal.now derivation.now) }
{
    match *goal {
        Goal::Rule(rule) => Ok(derivation.rules().contains(&rule)),
        Goal::Context {
            outer,
            place,
            inner,
        } => has_occurrence(
            alloc,
            grammar,
            derivation,
            Occurrence {
                outer,
                place,
                inner,
            },
        ),
        Goal::Pair { left, right } => {
            let tokens = yield_of(alloc, grammar, derivation)?;
            Ok(has_pair(&tokens, left, right))
        }
    }
}

// Whether some node with the outer rule has a node with the inner one as its child at the place. The stack says of
// each open nonterminal whether it is such a child.
fn has_occurrence(
    alloc: Global,
    grammar: &Grammar,
    derivation: &Derivation,
    occurrence: Occurrence,
) -> Result<bool, AllocError>
    requires { IsDerivationOf grammar.now derivation.now }
    ensures { IfOk result
        (λ met. IsTrue met ↔ IsMeeting grammar.now (context_goal occurrence) derivation.now) }
{
    let mut pending = vec![in alloc; false]?;
    for number in derivation.rules() {
        let is_awaited = pending.pop().unwrap_or(false);
        if is_awaited && *number == occurrence.inner {
            return Ok(true);
        }
        let rule = grammar.rule(*number);
        await_child(
            &mut pending,
            rule.right(),
            if *number == occurrence.outer {
                occurrence.place
            } else {
                0
            },
        )?;
    }
    Ok(false)
}

// Puts the nonterminals of a right side in front of the open ones, which stand in reverse; the one at the place, counted
// from 1, is awaited.
fn await_child(pending: &mut Vec<bool>, right: &[Symbol], place: u16) -> Result<(), AllocError>
    ensures { OnOk result (AreOnTop (awaits place right.now) pending.old.items pending.new.items) }
{
    for at in (0..right.len()).rev() {
        if let Symbol::Nonterminal(_) = right[at] {
            pending.push(at + 1 == place as usize)?;
        }
    }
    Ok(())
}
