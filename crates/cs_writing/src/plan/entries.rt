// What is made of goals, batch by batch.

ghost use Rattle.std.specs.Prelude.{◌≡◌, ◌≤◌, All, IfOk, OnErr, length};
ghost use Rattle.std.specs.Vec.Iter.{into_iter_items};
ghost use Rattle.cs_writing.specs.Plan.Entries.{ComesNext, AreStillLeft};
ghost use Rattle.cs_writing.specs.Plan.Made.{HasItsCase, IsNamedMade, made_of};
ghost use Rattle.cs_writing.specs.Plan.Placing.{first_in, rest_of};
ghost use Rattle.cs_writing.specs.Plan.Plans.{IsOfPlan, IsPlan};

use crate::plan::made::Made;
use crate::plan::placing::{Placed, place_next};
use crate::plan::plan::Plan;
use crate::plan::texts::render_placed;
use cs_fan::{Crew, Gate};
use cs_texts::Rendered;
use cs_verdicts::{Cases, Positives};
use std::alloc::{AllocError, Global};
use std::thread::Threads;
use std::vec::IntoIter;

/// What is made of the next goals: at most 1,024 of them. Nothing where no goal is left. In the second format the
/// derivations of feasible goals are placed among the cases; the first leaves these as they are. Four workers render
/// the tokens. After a refusal, which is want of memory, goals may be lost that were placed: no later call is of use.
pub fn next_entries<R: Threads + Sync, G: Gate + Sync>(
    crew: &Crew<'_, R, G>,
    alloc: Global,
    plan: &Plan<'_>,
    positives: &mut Positives<'_>,
    cases: &mut Cases<'_>,
) -> Result<Vec<Made>, AllocError>
    requires plan { IsPlan plan.now }
    requires positives { IsOfPlan plan.now positives.old }
    requires cases { cases.old.grammar ≡ plan.now.yacc.now.grammar }
    ensures entries { IfOk result
        (ComesNext plan.now positives.old cases.old positives.new cases.new) }
    ensures named { IfOk result (λ made. All (IsNamedMade plan.now.yacc.now) made.items) }
    ensures few { IfOk result (λ made. length made.items ≤ 1024) }
    ensures tables { positives.new.tables ≡ positives.old.tables }
    ensures grammar { cases.new.grammar ≡ cases.old.grammar }
    ensures refused { OnErr result (AreStillLeft positives.old positives.new) }
{
    let grammar = plan.yacc.grammar();
    let placed = place_next(alloc, grammar, plan.form.format(), positives, cases)?;
    let rendered = render_placed(crew, alloc, plan.form.means(), grammar.tokens(), &placed)?;
    let mut rendered = rendered.into_iter();
    let mut entries = Vec::with_capacity(alloc, placed.len())?;
    for placed in placed {
        entries.push(join(placed, &mut rendered))?;
    }
    Ok(entries)
}

// A goal that was placed, with what came first.
fn join(placed: Placed, rendered: &mut IntoIter<Option<Rendered>, Global>) -> Made
    requires { HasItsCase placed.verdict placed.shared (first_in (into_iter_items rendered.old)) }
    ensures made { result ≡ made_of placed (first_in (into_iter_items rendered.old)) }
    ensures left { into_iter_items rendered.new ≡ rest_of (into_iter_items rendered.old) }
{
    let rendered = take_first(rendered);
    Made { placed, rendered }
}

// What comes first, and nothing where nothing is left.
fn take_first(left: &mut IntoIter<Option<Rendered>, Global>) -> Option<Rendered>
    ensures first { result ≡ first_in (into_iter_items left.old) }
    ensures left { into_iter_items left.new ≡ rest_of (into_iter_items left.old) }
{
    match left.next() {
        Some(first) => first,
        None => None,
    }
}
