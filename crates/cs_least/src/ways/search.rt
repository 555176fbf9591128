// The search: what was found is settled from the least on.

ghost use Rattle.std.specs.Prelude.{◌≡◌, ◌+◌, ◌<◌, ◌^◌, All, IfOk, OnOk, length};
ghost use Rattle.cs_least.specs.Ways.Ways.{IsNode, AreLeastWays};
ghost use Rattle.cs_least.specs.Ways.Waiting.{Offers, AreFirstBeginnings, HoldsKnown, OffersSteps, Settles};
ghost use Rattle.cs_least.specs.Ways.Search.{IsKept};

use crate::ways::candidate::{Candidate, is_known};
use crate::ways::reach::Reach;
use crate::ways::step::{Source, Step};
use crate::ways::steps::Steps;
use cs_grammar::place_of;
use std::alloc::{AllocError, Global};
use std::cmp::Reverse;
use std::collections::BinaryHeap;

// What was found: the first candidate that is known of each node, and those that wait, the least on top.
#[derive(Debug, Drop)]
struct Waiting {
    known: Vec<Option<Candidate>>,
    heap: BinaryHeap<Reverse<Candidate>>,
}

// Pushes what was found, where it comes before all that is known of its node.
#[inline(always)]
fn offer(found: Candidate, waiting: &mut Waiting) -> Result<(), AllocError>
    requires { IsNode (length waiting.old.known.items) found.node }
    ensures { OnOk result (Offers found waiting.old waiting.new) }
{
    let place = place_of(found.node);
    if !is_known(waiting.known[place], found) {
        waiting.known[place] = Some(found);
        waiting.heap.push(Reverse(found))?;
    }
    Ok(())
}

// Keeps what was found, where it comes before all that is known of its node.
#[inline(always)]
fn keep(found: Candidate, known: &mut Vec<Option<Candidate>>)
    requires { IsNode (length known.old.items) found.node }
    ensures { IsKept found known.old.items known.new.items }
{
    let place = place_of(found.node);
    if !is_known(known[place], found) {
        known[place] = Some(found);
    }
}

// The first of the beginnings at each node.
fn first_beginnings(
    alloc: Global,
    limit: u32,
    nodes: u16,
    sources: &[Source],
) -> Result<Vec<Option<Candidate>>, AllocError>
    requires limit { limit + 1 < 2 ^ 32 }
    requires few { length sources.now < 2 ^ 32 }
    requires nodes { All (λ s. IsNode nodes s.node) sources.now }
    ensures { IfOk result (AreFirstBeginnings limit nodes sources.now) }
{
    let mut known = vec![in alloc; None; nodes as usize]?;
    for (origin, source) in sources.iter().enumerate() {
        keep(
            Candidate::beginning(limit, origin as u32, *source),
            &mut known,
        );
    }
    Ok(known)
}

// All that is known, as what waits.
fn heap_of(
    alloc: Global,
    known: &[Option<Candidate>],
) -> Result<BinaryHeap<Reverse<Candidate>>, AllocError>
    ensures { IfOk result (HoldsKnown known.now) }
{
    let mut heap = BinaryHeap::new(alloc);
    for entry in known {
        if let Some(found) = entry {
            heap.push(Reverse(*found))?;
        }
    }
    Ok(heap)
}

fn offer_steps(
    limit: u32,
    found: Candidate,
    steps: &[Step],
    waiting: &mut Waiting,
) -> Result<(), AllocError>
    requires limit { limit + 1 < 2 ^ 32 }
    requires nodes { All (λ s. IsNode (length waiting.old.known.items) s.to) steps.now }
    ensures { OnOk result (OffersSteps limit found steps.now waiting.old waiting.new) }
{
    for step in steps {
        offer(found.after(limit, *step), waiting)?;
    }
    Ok(())
}

// Settles the node of what was found, where it isn't settled, and goes on by its steps.
fn settle(
    limit: u32,
    steps: &Steps,
    found: Candidate,
    table: &mut [Reach],
    waiting: &mut Waiting,
) -> Result<(), AllocError>
    requires limit { limit + 1 < 2 ^ 32 }
    requires node { IsNode steps.now.nodes found.node }
    requires table { length table.old ≡ steps.now.nodes }
    requires known { length waiting.old.known.items ≡ steps.now.nodes }
    ensures { OnOk result
        (Settles limit steps.now found table.old waiting.old table.new waiting.new) }
{
    let place = place_of(found.node);
    if table[place] == Reach::Never {
        table[place] = found.reach(limit);
        offer_steps(limit, found, steps.leaving(found.node), waiting)?;
    }
    Ok(())
}

/// What the least way to each node costs, and the first source of the least ways to it: the entry of node `n` stands at
/// `n - 1`.
pub fn least_ways(
    alloc: Global,
    steps: &Steps,
    sources: &[Source],
    limit: u32,
) -> Result<Vec<Reach>, AllocError>
    requires limit { limit + 1 < 2 ^ 32 }
    requires few { length sources.now < 2 ^ 32 }
    requires sources { All (λ s. IsNode steps.now.nodes s.node) sources.now }
    ensures { IfOk result (λ table. AreLeastWays limit steps.now sources.now table.items) }
{
    let _list = steps.list();
    let mut table = vec![in alloc; Reach::Never; steps.nodes() as usize]?;
    let known = first_beginnings(alloc, limit, steps.nodes(), sources)?;
    let heap = heap_of(alloc, &known)?;
    let mut waiting = Waiting { known, heap };
    while let Some(Reverse(found)) = waiting.heap.pop() {
        settle(limit, steps, found, &mut table, &mut waiting)?;
    }
    Ok(table)
}
