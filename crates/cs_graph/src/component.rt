// The strongly connected components of a graph, by one search over it (the path-based search: Gabow 2000, "Path-based
// depth-first search for strong and biconnected components").

ghost use Rattle.std.specs.Prelude.{◌≡◌, ◌<◌, ◌≤◌, [], All, Some, IfOk, OnOk, length, map};
ghost use Rattle.cs_graph.specs.Graph.{IsGraph, AreComponents};
ghost use Rattle.cs_graph.specs.Groups as groups;
ghost use Rattle.cs_graph.specs.Groups.{IsSearchOf, IsSearchAt, IsSearchWith, IsNew, IsOpened, IsStep, IsLook, IsClosed, IsDone, IsJoined, IsRising, AreNumbered, AllLead};

use std::alloc::{AllocError, Global};

/// Of a node: not seen, on the stack at a place, or in the component of a number.
#[derive(Clone, Copy, Debug)]
enum State {
    New,
    Open(usize),
    Closed(usize),
}

/// Nodes on the stack that lead to one another, from a place on, and their successors that are pending, from a place on. Behind
/// them are those of the next group.
#[derive(Clone, Copy, Debug)]
struct Group {
    first: usize,
    pending: usize,
}

/// The nodes on the stack are in groups, each of which leads to those behind it. A closed group is a component; its place is the
/// number.
#[derive(Drop)]
struct Search {
    states: Vec<State>,
    stack: Vec<usize>,
    pending: Vec<usize>,
    groups: Vec<Group>,
    closed: Vec<Group>,
}

/// Puts a new node on the stack, as a group.
fn open(graph: &[Vec<usize>], search: &mut Search, node: usize) -> Result<(), AllocError>
    requires graph { IsGraph graph.now }
    requires search { IsSearchAt graph.now search.old node }
    requires new { IsNew search.old.states.items node }
    requires led_to { AllLead graph.now search.old.stack.items node }
    ensures { OnOk result (IsOpened graph.now search.old node search.new) }
{
    let group = Group {
        first: search.stack.len(),
        pending: search.pending.len(),
    };
    search.states[node] = State::Open(group.first);
    search.stack.push(node)?;
    search.pending.extend_from_slice(&graph[node])?;
    search.groups.push(group)?;
    Ok(())
}

/// Joins the groups that begin behind the place to the one before them.
fn join(groups: &mut Vec<Group>, place: usize) -> Result<(), AllocError>
    requires { IsRising groups.old.items }
    ensures { OnOk result (IsJoined groups.old.items place groups.new.items) }
{
    while let Some(last) = groups.pop() {
        if last.first <= place {
            groups.push(last)?;
            return Ok(());
        }
    }
    Ok(())
}

/// Looks at a successor, which was taken off the pending ones, of the last group.
fn look(graph: &[Vec<usize>], search: &mut Search, to: usize) -> Result<(), AllocError>
    requires graph { IsGraph graph.now }
    requires search { IsSearchAt graph.now search.old to }
    requires node { to < length graph.now }
    requires led_to { AllLead graph.now search.old.stack.items to }
    ensures { OnOk result (IsLook graph.now search.old search.new) }
{
    match search.states[to] {
        State::New => open(graph, search, to),
        State::Open(place) => join(&mut search.groups, place),
        State::Closed(_) => Ok(()),
    }
}

/// Gives the nodes the number.
fn number_all(states: &mut [State], nodes: &[usize], number: usize)
    requires { All (λ node. node < length states.old) nodes.now }
    ensures { AreNumbered states.old nodes.now number states.new }
{
    for node in nodes {
        states[*node] = State::Closed(number);
    }
}

/// Takes the nodes of the last group off the stack: it is a component.
fn close(search: &mut Search, last: Group) -> Result<(), AllocError>
    requires first { last.first ≤ length search.old.stack.items }
    requires nodes { All (λ node. node < length search.old.states.items) search.old.stack.items }
    ensures { OnOk result (IsClosed search.old last search.new) }
{
    number_all(
        &mut search.states,
        &search.stack[last.first..],
        search.closed.len(),
    );
    search.stack.truncate(last.first);
    search.closed.push(last)?;
    Ok(())
}

/// Goes on from the last group, which was taken off the groups.
fn step(graph: &[Vec<usize>], search: &mut Search, last: Group) -> Result<(), AllocError>
    requires graph { IsGraph graph.now }
    requires search { IsSearchWith graph.now search.old last }
    ensures { OnOk result (IsStep graph.now search.old last search.new) }
{
    if search.pending.len() <= last.pending {
        return close(search, last);
    }
    search.groups.push(last)?;
    match search.pending.pop() {
        Some(to) => look(graph, search, to),
        None => Ok(()),
    }
}

/// Goes on until all groups are closed.
fn finish(graph: &[Vec<usize>], search: &mut Search) -> Result<(), AllocError>
    requires graph { IsGraph graph.now }
    requires search { IsSearchOf graph.now search.old }
    ensures { OnOk result (IsDone graph.now search.old search.new) }
{
    while let Some(last) = search.groups.pop() {
        step(graph, search, last)?;
    }
    Ok(())
}

/// Searches on from the node, if it is new.
fn visit(graph: &[Vec<usize>], search: &mut Search, node: usize) -> Result<(), AllocError>
    requires graph { IsGraph graph.now }
    requires node { node < length graph.now }
    requires search { IsSearchOf graph.now search.old }
    requires none { search.old.groups.items ≡ [] }
    ensures done { OnOk result (IsDone graph.now search.old search.new) }
    ensures seen { OnOk result (IsNew search.new.states.items node → ⊥) }
{
    if let State::New = search.states[node] {
        open(graph, search, node)?;
        finish(graph, search)?;
    }
    Ok(())
}

fn number(state: State) -> usize
    ensures { result ≡ groups.number state }
{
    match state {
        State::New => 0,
        State::Open(place) => place,
        State::Closed(number) => number,
    }
}

fn numbers(alloc: Global, states: &[State]) -> Result<Vec<usize>, AllocError>
    ensures { IfOk result (λ numbers. numbers.items ≡ map groups.number states.now) }
{
    let mut numbers = Vec::new(alloc);
    for state in states {
        numbers.push(number(*state))?;
    }
    Ok(numbers)
}

/// For each node the number of its strongly connected component: two nodes have the same number exactly where each leads to the
/// other. It takes time linear in the nodes and edges.
pub fn components(alloc: Global, graph: &[Vec<usize>]) -> Result<Vec<usize>, AllocError>
    requires { IsGraph graph.now }
    ensures { IfOk result (λ components. AreComponents graph.now components.items) }
{
    let mut search = Search {
        states: vec![in alloc; State::New; graph.len()]?,
        stack: Vec::new(alloc),
        pending: Vec::new(alloc),
        groups: Vec::new(alloc),
        closed: Vec::new(alloc),
    };
    for node in 0..graph.len() {
        visit(graph, &mut search, node)?;
    }
    numbers(alloc, &search.states)
}
