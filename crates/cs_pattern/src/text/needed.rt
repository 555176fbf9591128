// The patterns of the definitions that a text needs.

ghost use Rattle.std.specs.Prelude.{◌≡◌, ◌∷◌, [], IfOk, OnOk, length};
ghost use Rattle.cs_pattern.specs.Operations.Operations.{op_of, ops_of};
ghost use Rattle.cs_pattern.specs.Operations.Trees.{GiveShallow, known_at};
ghost use Rattle.cs_pattern_parts.specs.Tree.Pattern.{regex};
ghost use Rattle.cs_pattern.specs.Text.Needed as spec;
ghost use Rattle.cs_pattern.specs.Text.Needed.{AddsUsed, AreInOrder, AreNeeded, AreOfSome, ArePlaces, HaveOrder, KeepsOthers, KnowNeeded, Learns, ops_at};

use crate::operations::{Known, Op, build};
use cs_pattern_parts::Pattern;
use indexmap::IndexMap;
use std::alloc::{AllocError, Global};
use std::collections::BTreeSet;

fn add_place(
    index: usize,
    places: &[usize],
    pending: &mut BTreeSet<usize>,
) -> Result<(), AllocError>
    ensures { OnOk result
        (pending.new.keys ≡ spec.add_place places.now index pending.old.keys) }
{
    if index < places.len() {
        pending.insert(places[index])?;
    }
    Ok(())
}

fn add_op(op: &Op, places: &[usize], pending: &mut BTreeSet<usize>) -> Result<(), AllocError>
    ensures { OnOk result (AddsUsed places.now (op_of op.now ∷ []) pending.old pending.new) }
{
    match op {
        Op::Substitute(index) => add_place(*index, places, pending),
        _ => Ok(()),
    }
}

/// Adds the places of the definitions that the operations put in.
fn add_used(ops: &[Op], places: &[usize], pending: &mut BTreeSet<usize>) -> Result<(), AllocError>
    ensures { OnOk result (AddsUsed places.now (ops_of ops.now) pending.old pending.new) }
{
    for op in ops {
        add_op(op, places, pending)?;
    }
    Ok(())
}

/// Adds the places of what the definition uses.
fn add_behind(
    bodies: &[Vec<Op>],
    index: usize,
    places: &[usize],
    pending: &mut BTreeSet<usize>,
) -> Result<(), AllocError>
    ensures { OnOk result
        (AddsUsed places.now (ops_at bodies.now index) pending.old pending.new) }
{
    match bodies.get(index) {
        Some(ops) => add_used(ops, places, pending),
        None => Ok(()),
    }
}

/// The definitions that the operations need, those that stand behind others included, and no others: each before those that it
/// uses. It takes the last of those that wait, so none that comes later uses it.
pub(crate) fn needed(
    alloc: Global,
    ops: &[Op],
    bodies: &[Vec<Op>],
    order: &[usize],
    places: &[usize],
) -> Result<Vec<usize>, AllocError>
    requires of { AreOfSome bodies.now order.now }
    requires places { ArePlaces (length bodies.now) order.now places.now }
    ensures { IfOk result (λ needed. AreNeeded bodies.now (ops_of ops.now) needed.items) }
{
    let mut needed = Vec::new(alloc);
    let mut pending = BTreeSet::new(alloc);
    add_used(ops, places, &mut pending)?;
    while let Some(place) = pending.pop_last() {
        let index = order[place];
        add_behind(bodies, index, places, &mut pending)?;
        needed.push(index)?;
    }
    Ok(needed)
}

/// Puts the definition's pattern to those that are known.
fn put(known: &mut Known, index: usize, pattern: Pattern) -> Result<(), AllocError>
    ensures this { OnOk result (known_at known.new.entries index ≡ regex pattern) }
    ensures others { OnOk result (KeepsOthers index known.old.entries known.new.entries) }
{
    known.insert(index, pattern)?;
    Ok(())
}

/// Builds the pattern of the definition.
fn know(
    alloc: Global,
    bodies: &[Vec<Op>],
    index: usize,
    known: &mut Known,
) -> Result<(), AllocError>
    requires { GiveShallow known.old.entries (ops_at bodies.now index) }
    ensures { OnOk result (Learns bodies.now index known.old.entries known.new.entries) }
{
    let Some(ops) = bodies.get(index) else {
        return Ok(());
    };
    let pattern = build(alloc, ops, known)?;
    put(known, index, pattern)
}

/// The patterns of the definitions that are needed, the last first.
pub(crate) fn known(
    alloc: Global,
    needed: &[usize],
    bodies: &[Vec<Op>],
) -> Result<Known, AllocError>
    requires order { HaveOrder bodies.now }
    requires needed { AreInOrder bodies.now needed.now }
    ensures { IfOk result (λ known. KnowNeeded bodies.now needed.now known.entries) }
{
    let mut known = IndexMap::new(alloc);
    let mut end = needed.len();
    while end > 0 {
        end -= 1;
        know(alloc, bodies, needed[end], &mut known)?;
    }
    Ok(known)
}
