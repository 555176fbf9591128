// Which definitions use which.

ghost use Rattle.std.specs.Prelude.{◌≡◌, ◌<◌, ◌≤◌, ◌↔◌, IsTrue, IfOk, IfErr, OnOk, length};
ghost use Rattle.cs_bytes.specs.Limits.{most_bytes};
ghost use Rattle.cs_pattern.specs.Text.Names as spec;
ghost use Rattle.cs_pattern.specs.Text.Checked.{IsOrder};
ghost use Rattle.cs_pattern.specs.Text.Checking.{RefusesDefinitions, HasNoCycle};
ghost use Rattle.cs_pattern.specs.Operations.Definitions.{definitions_of, total_bytes};
ghost use Rattle.cs_pattern.specs.Text.Stages.{AreComponents, AreItemsOf, AreNamed, AreRead, IsItemOf, IsUseGraph};
ghost use Rattle.cs_pattern.specs.Text.Uses as meaning;
ghost use Rattle.cs_pattern.specs.Text.UseView.{IsFirstBack, LeadsBack, all_uses, with_use};
ghost use Rattle.cs_pattern_parts.specs.Items.Views.{item_of, placed_all, placed_of};

use crate::operations::{Texts, index_of};
use crate::text::checking::fault_at;
use crate::text::fault::{CheckError, PatternFault};
use cs_graph::{components, order};
use cs_pattern_parts::{Item, Placed};
use std::alloc::{AllocError, Global};

/// Whether the item is a name that is not defined.
fn is_undefined(item: &Item, names: &Texts) -> bool
    ensures { result ≡ spec.is_undefined (definitions_of names.now.entries) (item_of item.now) }
{
    match item {
        Item::Name(name) => index_of(names, name).is_none(),
        _ => false,
    }
}

/// The offset of the first name that is not defined.
pub(crate) fn first_undefined(items: &[Placed], names: &Texts) -> Option<u32>
    ensures { result
        ≡ spec.first_undefined (definitions_of names.now.entries) (placed_all items.now) }
{
    for placed in items {
        if is_undefined(&placed.item, names) {
            return Some(placed.at);
        }
    }
    None
}

/// The index of the definition that the item names.
fn used(item: &Item, names: &Texts) -> Option<usize>
    ensures { result ≡ meaning.used (definitions_of names.now.entries) (item_of item.now) }
{
    match item {
        Item::Name(name) => index_of(names, name),
        _ => None,
    }
}

fn push_use(uses: &mut Vec<usize>, item: &Item, names: &Texts) -> Result<(), AllocError>
    ensures { OnOk result (uses.new.items ≡ with_use names.now.entries uses.old.items item.now) }
{
    if let Some(index) = used(item, names) {
        uses.push(index)?;
    }
    Ok(())
}

/// The definitions that the items use, in order and with repetitions.
fn uses_of(alloc: Global, items: &[Placed], names: &Texts) -> Result<Vec<usize>, AllocError>
    ensures { IfOk result (λ uses. uses.items ≡ all_uses names.now.entries items.now) }
{
    let mut uses = Vec::new(alloc);
    for placed in items {
        push_use(&mut uses, &placed.item, names)?;
    }
    Ok(uses)
}

/// For each definition those that it uses.
fn graph_of(
    alloc: Global,
    all: &[Vec<Placed>],
    names: &Texts,
) -> Result<Vec<Vec<usize>>, AllocError>
    requires { AreRead (definitions_of names.now.entries) all.now }
    ensures { IfOk result (λ graph. IsUseGraph (definitions_of names.now.entries) graph.items) }
{
    let mut graph = Vec::new(alloc);
    for items in all {
        graph.push(uses_of(alloc, items, names)?)?;
    }
    Ok(graph)
}

/// Whether the definition's item names the definition or one that reaches it.
fn leads_to(placed: &Placed, names: &Texts, components: &[usize], to: usize) -> bool
    requires numbers { AreComponents (definitions_of names.now.entries) components.now }
    requires to { to < length components.now }
    requires item { IsItemOf (definitions_of names.now.entries) to (placed_of placed.now) }
    ensures { IsTrue result ↔ LeadsBack names.now.entries to placed.now }
{
    match used(&placed.item, names) {
        Some(next) => components[next] == components[to],
        None => false,
    }
}

/// The offset of the first of the definition's items from which it is reached.
fn first_to(items: &[Placed], names: &Texts, components: &[usize], to: usize) -> Option<u32>
    requires numbers { AreComponents (definitions_of names.now.entries) components.now }
    requires to { to < length components.now }
    requires items { AreItemsOf (definitions_of names.now.entries) to (placed_all items.now) }
    ensures { IsFirstBack names.now.entries to items.now result }
{
    for placed in items {
        if leads_to(placed, names, components, to) {
            return Some(placed.at);
        }
    }
    None
}

/// Refuses the lowest definition that reaches itself.
fn check_cycles(
    alloc: Global,
    all: &[Vec<Placed>],
    names: &Texts,
    graph: &[Vec<usize>],
) -> Result<(), CheckError>
    requires bytes { total_bytes (definitions_of names.now.entries) ≤ most_bytes }
    requires read { AreRead (definitions_of names.now.entries) all.now }
    requires named { AreNamed (definitions_of names.now.entries) all.now }
    requires graph { IsUseGraph (definitions_of names.now.entries) graph.now }
    ensures none { OnOk result (HasNoCycle (definitions_of names.now.entries)) }
    ensures refused { IfErr result (RefusesDefinitions (definitions_of names.now.entries)) }
{
    let components = components(alloc, graph)?;
    for (index, items) in all.iter().enumerate() {
        if let Some(at) = first_to(items, names, &components, index) {
            return Err(fault_at(index, PatternFault::DefinitionCycle { at }));
        }
    }
    Ok(())
}

/// The definitions in an order in which each stands behind those that it uses.
pub(crate) fn order_of(
    alloc: Global,
    all: &[Vec<Placed>],
    names: &Texts,
) -> Result<Vec<usize>, CheckError>
    requires bytes { total_bytes (definitions_of names.now.entries) ≤ most_bytes }
    requires read { AreRead (definitions_of names.now.entries) all.now }
    requires named { AreNamed (definitions_of names.now.entries) all.now }
    ensures order { IfOk result (λ order. IsOrder (definitions_of names.now.entries) order.items) }
    ensures no_cycle { OnOk result (HasNoCycle (definitions_of names.now.entries)) }
    ensures refused { IfErr result (RefusesDefinitions (definitions_of names.now.entries)) }
{
    let graph = graph_of(alloc, all, names)?;
    if let Some(order) = order(alloc, &graph)? {
        return Ok(order);
    }
    check_cycles(alloc, all, names, &graph)?;
    unreachable!()
}
