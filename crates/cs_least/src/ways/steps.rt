// The steps between nodes, kept so that those that leave a node are found at once.

ghost use Rattle.std.specs.Prelude.{◌≡◌, ◌↔◌, IsTrue, All, IfOk, [], map};
ghost use Rattle.std.specs.Global.{Vec};
ghost use Rattle.cs_least.specs.declared.ways.step.Step.{Step};
ghost use Rattle.cs_least.specs.Ways.Ways.{IsNode, IsNet, net_of};
ghost use Rattle.cs_least.specs.Ways.Rows.{leaving, AreRows};
ghost use Rattle.cs_least.specs.Ways.Turned.{turned, turned_step};

use crate::ways::step::Step;
use cs_grammar::place_of;
use std::alloc::{AllocError, Global};
use std::marker::Model;

// Each row is given room for as many steps at once.
const USUAL_STEPS: usize = 16;

/// Nodes, numbered from 1, and the steps between them, in the order in which they were given.
#[derive(Debug, Drop)]
pub struct Steps {
    nodes: u16,
    list: Vec<Step>,
    rows: Vec<Vec<Step>>,
}

impl Model for Steps {
    ghost use Rattle.cs_least.specs.Ways.Ways.{Net, net_of};
    ghost use Rattle.cs_least.specs.Ways.Rows.{AreRowsOf};

    ghost Value = { Net };

    ghost view = { λ s. net_of s.nodes s.list.items };

    ghost invariant = { λ s. AreRowsOf (net_of s.nodes s.list.items) s.rows.items };
}

impl Steps {
    /// Whether each step leads from one of so many nodes to one of them.
    pub fn fits(nodes: u16, list: &[Step]) -> bool
        ensures { IsTrue result ↔ IsNet (net_of nodes list.now) }
    {
        list.iter().all(|step| is_between(nodes, *step))
    }

    /// The steps of a list for which `fits` holds.
    pub fn new(alloc: Global, nodes: u16, list: Vec<Step>) -> Result<Steps, AllocError>
        requires { IsNet (net_of nodes list.items) }
        ensures { IfOk result (λ steps. steps ≡ net_of nodes list.items) }
    {
        let rows = rows_of(alloc, nodes, &list)?;
        Ok(Steps { nodes, list, rows })
    }

    /// How many nodes there are.
    pub fn nodes(&self) -> u16
        ensures { result ≡ self.now.nodes }
    {
        self.nodes
    }

    /// All steps, in the order in which they were given.
    pub fn list(&self) -> &[Step]
        ensures is { result.now ≡ self.now.steps }
        ensures net { IsNet self.now }
    {
        &self.list
    }

    // The steps that leave a node, in their order.
    pub(crate) fn leaving(&self, node: u16) -> &[Step]
        requires { IsNode self.now.nodes node }
        ensures is { result.now ≡ leaving self.now.steps node }
        ensures nodes { All (λ s. IsNode self.now.nodes s.to) result.now }
    {
        &self.rows[place_of(node)]
    }
}

fn is_between(nodes: u16, step: Step) -> bool
    ensures { IsTrue result ↔ (IsNode nodes step.from × IsNode nodes step.to) }
{
    0 < step.from && step.from <= nodes && 0 < step.to && step.to <= nodes
}

fn empty_rows(alloc: Global, nodes: u16) -> Result<Vec<Vec<Step>>, AllocError>
    ensures { IfOk result (λ rows. AreRows nodes [] rows.items) }
{
    let mut rows = Vec::with_capacity(alloc, nodes as usize)?;
    for _ in 0..nodes {
        rows.push(Vec::with_capacity(alloc, USUAL_STEPS)?)?;
    }
    Ok(rows)
}

// For each node the steps that leave it.
fn rows_of(alloc: Global, nodes: u16, list: &[Step]) -> Result<Vec<Vec<Step>>, AllocError>
    requires { IsNet (net_of nodes list.now) }
    ensures { IfOk result (λ rows. AreRows nodes list.now rows.items) }
{
    let mut rows = empty_rows(alloc, nodes)?;
    for step in list {
        rows[place_of(step.from)].push(*step)?;
    }
    Ok(rows)
}

// Each step turned round, in the same order.
fn turned_list(alloc: Global, list: &[Step]) -> Result<Vec<Step>, AllocError>
    ensures { IfOk result (λ turned. turned.items ≡ map turned_step list.now) }
{
    let mut turned = Vec::with_capacity(alloc, list.len())?;
    for step in list {
        turned.push(Step {
            from: step.to,
            to: step.from,
            cost: step.cost,
        })?;
    }
    Ok(turned)
}

/// The same nodes, and each step turned round: it leads back from where it led, at the same cost.
pub fn turned(alloc: Global, steps: &Steps) -> Result<Steps, AllocError>
    ensures { IfOk result (λ back. back ≡ turned steps.now) }
{
    let list = turned_list(alloc, steps.list())?;
    Steps::new(alloc, steps.nodes(), list)
}
