// The first step by which a least way reaches each node.

ghost use Rattle.std.specs.Prelude.{◌≡◌, ◌+◌, ◌↔◌, IsTrue, IfOk, length};
ghost use Rattle.cs_least.specs.Ways.Ways.{IsNode, TellFirstSteps};
ghost use Rattle.cs_least.specs.Ways.Firsts.{IsTight, IsFirstTight};

use crate::ways::reach::Reach;
use crate::ways::step::Step;
use crate::ways::steps::Steps;
use cs_grammar::place_of;
use std::alloc::{AllocError, Global};

fn is_sum(before: u32, cost: u32, after: u32) -> bool
    ensures { IsTrue result ↔ (before + cost ≡ after) }
{
    u64::from(before) + u64::from(cost) == u64::from(after)
}

// Whether a least way to the step's first node, and the step, cost what is told of its second.
fn is_tight(table: &[Reach], step: Step) -> bool
    requires from { IsNode (length table.now) step.from }
    requires to { IsNode (length table.now) step.to }
    ensures { IsTrue result ↔ IsTight table.now step }
{
    match (table[place_of(step.from)], table[place_of(step.to)]) {
        (Reach::Least { cost: before, .. }, Reach::Least { cost: after, .. }) => {
            is_sum(before, step.cost, after)
        }
        _ => false,
    }
}

// Whether a step is tight, and none to its node is known so far.
fn is_first(table: &[Reach], firsts: &[Option<usize>], step: Step) -> bool
    requires firsts { length firsts.now ≡ length table.now }
    requires from { IsNode (length table.now) step.from }
    requires to { IsNode (length table.now) step.to }
    ensures { IsTrue result ↔ IsFirstTight table.now firsts.now step }
{
    firsts[place_of(step.to)].is_none() && is_tight(table, step)
}

/// For each node the place, in the list of all steps, of the first step by which a least way reaches it, where the table
/// tells `Least` and such a way has a step. The table is an answer of `least_ways` over these steps: of another one nothing
/// is told.
pub fn first_steps(
    alloc: Global,
    steps: &Steps,
    table: &[Reach],
) -> Result<Vec<Option<usize>>, AllocError>
    requires { length table.now ≡ steps.now.nodes }
    ensures { IfOk result (λ firsts. TellFirstSteps steps.now table.now firsts.items) }
{
    let mut firsts = vec![in alloc; None; table.len()]?;
    for (place, step) in steps.list().iter().enumerate() {
        if is_first(table, &firsts, *step) {
            firsts[place_of(step.to)] = Some(place);
        }
    }
    Ok(firsts)
}
