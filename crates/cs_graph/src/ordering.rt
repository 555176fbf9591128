// An order of the nodes in which each stands behind its successors, by a walk that goes on from each node to its successors
// first.

ghost use Rattle.std.specs.Prelude.{◌≡◌, ◌<◌, [], IsTrue, false, IfOk, length};
ghost use Rattle.cs_graph.specs.Graph.{IsGraph, HasCycle, IsOrderOrCycle};
ghost use Rattle.cs_graph.specs.Marks.{IsMarked};
ghost use Rattle.cs_graph.specs.Walk.{IsWalkOf, IsWalkWith, IsStep, IsEnd};

use crate::marks::no_marks;
use std::alloc::{AllocError, Global};

/// A node on the path, of whose successors the first so many are left to be looked at.
#[derive(Clone, Copy, Debug)]
struct Open {
    node: usize,
    left: usize,
}

/// The nodes that are in the order and those that were seen, the path, each of whose nodes waits for the next one, and the order.
#[derive(Drop)]
struct Walk {
    ready: Vec<bool>,
    seen: Vec<bool>,
    path: Vec<Open>,
    order: Vec<usize>,
}

/// Goes on from the last node of the path, which was taken off it, to a successor, or puts it into the order. Whether it could:
/// a successor on the path reaches itself.
fn step(graph: &[Vec<usize>], walk: &mut Walk, last: Open) -> Result<bool, AllocError>
    requires graph { IsGraph graph.now }
    requires walk { IsWalkWith graph.now walk.old last }
    ensures step { IfOk result (λ on. IsTrue on → IsStep graph.now walk.old last walk.new) }
    ensures cycle { IfOk result (λ on. on ≡ false → HasCycle graph.now) }
{
    let Open { node, left } = last;
    if left == 0 {
        if !walk.ready[node] {
            walk.ready[node] = true;
            walk.order.push(node)?;
        }
        return Ok(true);
    }
    let to = graph[node][left - 1];
    if walk.ready[to] {
        let left = left - 1;
        walk.path.push(Open { node, left })?;
        return Ok(true);
    }
    if walk.seen[to] {
        return Ok(false);
    }
    let left = graph[to].len();
    walk.seen[to] = true;
    walk.path.push(last)?;
    walk.path.push(Open { node: to, left })?;
    Ok(true)
}

/// Goes on until nothing is on the path. Whether it could.
fn finish(graph: &[Vec<usize>], walk: &mut Walk) -> Result<bool, AllocError>
    requires graph { IsGraph graph.now }
    requires walk { IsWalkOf graph.now walk.old }
    ensures end { IfOk result (λ on. IsTrue on → IsEnd graph.now walk.old walk.new) }
    ensures cycle { IfOk result (λ on. on ≡ false → HasCycle graph.now) }
{
    while let Some(last) = walk.path.pop() {
        if !step(graph, walk, last)? {
            return Ok(false);
        }
    }
    Ok(true)
}

/// Walks on from the node, if it was not seen. Whether it could.
fn visit(graph: &[Vec<usize>], walk: &mut Walk, node: usize) -> Result<bool, AllocError>
    requires graph { IsGraph graph.now }
    requires node { node < length graph.now }
    requires walk { IsWalkOf graph.now walk.old }
    requires none { walk.old.path.items ≡ [] }
    ensures end { IfOk result (λ on. IsTrue on → IsEnd graph.now walk.old walk.new) }
    ensures seen { IfOk result (λ on. IsTrue on → IsMarked walk.new.seen.items node) }
    ensures cycle { IfOk result (λ on. on ≡ false → HasCycle graph.now) }
{
    if walk.seen[node] {
        return Ok(true);
    }
    walk.seen[node] = true;
    let left = graph[node].len();
    walk.path.push(Open { node, left })?;
    finish(graph, walk)
}

/// The nodes in an order in which each stands behind its successors. There is none exactly where some node reaches itself. It
/// takes time linear in the nodes and edges.
pub fn order(alloc: Global, graph: &[Vec<usize>]) -> Result<Option<Vec<usize>>, AllocError>
    requires { IsGraph graph.now }
    ensures { IfOk result (IsOrderOrCycle graph.now) }
{
    let ready = no_marks(alloc, graph.len())?;
    let seen = no_marks(alloc, graph.len())?;
    let mut walk = Walk {
        ready,
        seen,
        path: Vec::new(alloc),
        order: Vec::new(alloc),
    };
    for node in 0..graph.len() {
        if !visit(graph, &mut walk, node)? {
            return Ok(None);
        }
    }
    Ok(Some(walk.order))
}
