// How deep a pattern is and how many leaves it has, without building it.

ghost use Rattle.std.specs.Prelude.{◌≡◌, ◌+◌, ◌*◌, ◌-◌, ◌++◌, ◌∷◌, [], IfOk, OnOk, max, slice_index_or};
ghost use Rattle.cs_pattern.specs.Operations.Depth as spec;
ghost use Rattle.cs_pattern.specs.Operations.Evaluation.{below, top};
ghost use Rattle.cs_pattern.specs.Operations.Measures as measures;
ghost use Rattle.cs_pattern.specs.Operations.Operations.{ops_of};
ghost use Rattle.cs_pattern.specs.Operations.Trees.{IsMeasureOf};

use crate::operations::operations::Op;
use cs_pattern_parts::Repetition;
use std::alloc::{AllocError, Global};

/// The depth and the number of leaves of a pattern; a number that is too large for the type stands at its end.
#[derive(Clone, Copy, Debug, PartialEq, Eq)]
pub(crate) struct Measure {
    pub(crate) depth: u32,
    pub(crate) leaves: u32,
}

/// One leaf.
pub(crate) fn leaf() -> Measure
    ensures { result ≡ spec.leaf }
{
    Measure {
        depth: 0,
        leaves: 1,
    }
}

/// The leaves of a quoted text of so many bytes.
fn quoted(length: usize) -> Measure
    ensures { result ≡ spec.measure 0 (max length 1) }
{
    let leaves = u32::try_from(length).unwrap_or(u32::MAX);
    Measure {
        depth: 0,
        leaves: leaves.max(1),
    }
}

fn grouped(inner: Measure) -> Measure
    ensures { result ≡ spec.measure (inner.depth + 1) inner.leaves }
{
    Measure {
        depth: inner.depth.saturating_add(1),
        leaves: inner.leaves,
    }
}

/// How many leaves so many copies have, and so many optional ones.
fn copies(leaves: u32, times: u32, optional: u32) -> u32
    ensures { result ≡ spec.in_32_bits (leaves * times + (leaves + 1) * optional) }
{
    leaves
        .saturating_mul(times)
        .saturating_add(leaves.saturating_add(1).saturating_mul(optional))
}

fn repeated(inner: Measure, repetition: Repetition) -> Measure
    ensures { result ≡ measures.repeated inner repetition }
{
    let leaves = match repetition {
        Repetition::Optional => copies(inner.leaves, 0, 1),
        Repetition::Exactly(times) => copies(inner.leaves, times, 0),
        Repetition::AtLeast(times) => copies(inner.leaves, times.saturating_add(1), 0),
        Repetition::Between(least, most) => copies(inner.leaves, least, most.saturating_sub(least)),
    };
    Measure {
        depth: inner.depth.saturating_add(1),
        leaves,
    }
}

/// The measure of parts that stand beside one another.
fn together(parts: &[Measure]) -> Measure
    ensures { result ≡ measures.together parts.now }
{
    let mut all = Measure {
        depth: 0,
        leaves: 0,
    };
    for part in parts {
        all = Measure {
            depth: all.depth.max(part.depth),
            leaves: all.leaves.saturating_add(part.leaves),
        };
    }
    all
}

fn push(stack: &mut Vec<Measure>, measure: Measure) -> Result<(), AllocError>
    ensures { OnOk result (stack.new.items ≡ stack.old.items ++ measure ∷ []) }
{
    stack.push(measure)?;
    Ok(())
}

/// Takes the top off the stack.
fn take_top(stack: &mut Vec<Measure>) -> Measure
    ensures value { result ≡ top (measures.measures []) stack.old.items }
    ensures rest { stack.new.items ≡ below (measures.measures []) 1 stack.old.items }
{
    stack.pop().unwrap_or(leaf())
}

/// Puts the measure of the last parts in their place.
fn join_last(stack: &mut Vec<Measure>, count: usize) -> Result<(), AllocError>
    ensures { OnOk result (stack.new.items ≡ measures.joined count stack.old.items) }
{
    let from = stack.len().saturating_sub(count);
    let all = together(&stack[from..]);
    stack.truncate(from);
    stack.push(all)?;
    Ok(())
}

/// The measure of a definition.
fn known_at(known: &[Measure], index: usize) -> Measure
    ensures { result ≡ slice_index_or known.now index spec.leaf }
{
    if index < known.len() {
        known[index]
    } else {
        leaf()
    }
}

fn apply(stack: &mut Vec<Measure>, op: &Op, known: &[Measure]) -> Result<(), AllocError>
    ensures { OnOk result
        (stack.new.items ≡ measures.next_stack known.now stack.old.items op.now) }
{
    match op {
        Op::Class(_) => push(stack, leaf()),
        Op::Quoted(bytes) => push(stack, quoted(bytes.len())),
        Op::Substitute(index) => push(stack, known_at(known, *index)),
        Op::Repeat(repetition) => {
            let inner = take_top(stack);
            push(stack, repeated(inner, *repetition))
        }
        Op::Group => {
            let inner = take_top(stack);
            push(stack, grouped(inner))
        }
        Op::Join(count) => join_last(stack, *count),
        Op::Either(count) => join_last(stack, *count),
    }
}

/// The measure of a pattern, where the definitions have the known ones; an index that has none counts as one leaf.
pub(crate) fn measure_of(
    alloc: Global,
    ops: &[Op],
    known: &[Measure],
) -> Result<Measure, AllocError>
    ensures { IfOk result (IsMeasureOf known.now (ops_of ops.now)) }
{
    let mut stack = Vec::new(alloc);
    for op in ops {
        apply(&mut stack, op, known)?;
    }
    Ok(take_top(&mut stack))
}
