// Orders and components of graphs, worked by hand: each node stands behind those that it leads to, and no graph here has two such
// orders; nodes have one number where each leads to the other.

use cs_graph::{components, is_graph, order};
use std::alloc::{AllocError, Global};
use std::test::Fail;

// From a text: for each node a word, of the digits of its successors or `-`.
fn graph_of(alloc: Global, text: &str) -> Result<Vec<Vec<usize>>, AllocError> {
    let mut graph = Vec::new(alloc);
    for word in text.split(' ') {
        let mut successors = Vec::new(alloc);
        for byte in word.bytes() {
            if byte.is_ascii_digit() {
                successors.push(byte as usize % 16)?;
            }
        }
        graph.push(successors)?;
    }
    Ok(graph)
}

// The order of a graph, as text.
fn shown(alloc: Global, graph: &[Vec<usize>]) -> Result<String, AllocError> {
    if !is_graph(graph) {
        return format!(in alloc; "no graph");
    }
    match order(alloc, graph)? {
        Some(order) => format!(in alloc; "{order:?}"),
        None => format!(in alloc; "cycle"),
    }
}

const ORDERS: &[(&str, &str)] = &[
    ("-", "[0]"),
    ("- 0 1", "[0, 1, 2]"),
    ("1 2 -", "[2, 1, 0]"),
    ("21 2 - 01", "[2, 1, 0, 3]"),
    ("0", "cycle"),
    ("- 2 1", "cycle"),
    ("1 2 3 1", "cycle"),
    ("1", "no graph"),
];

#[test]
fn nodes_in_order(rt: HostRuntime) -> Result<(), Fail> {
    let alloc = rt.alloc();
    for &(text, want) in ORDERS {
        let graph = graph_of(alloc, text)?;
        let found = shown(alloc, &graph)?;
        assert_eq!(rt; found.as_str(), want, "{text}");
    }
    Ok(())
}

// For each node the first one of its component, or that there is no graph.
fn first_nodes(alloc: Global, graph: &[Vec<usize>]) -> Result<String, AllocError> {
    if !is_graph(graph) {
        return format!(in alloc; "no graph");
    }
    let numbers = components(alloc, graph)?;
    let mut firsts = Vec::new(alloc);
    for number in &numbers {
        firsts.push(numbers.iter().position(|other| *other == *number))?;
    }
    let mut text = String::new(alloc);
    for first in firsts.iter().flatten() {
        write!(text, "{first} ")?;
    }
    Ok(text)
}

const COMPONENTS: &[(&str, &str)] = &[
    ("-", "0 "),
    ("0", "0 "),
    ("1 0", "0 0 "),
    ("1 2 -", "0 1 2 "),
    ("12 3 3 -", "0 1 2 3 "),
    ("1 - 10", "0 1 2 "),
    // The last edge goes back over two nodes.
    ("1 2 3 1", "0 1 1 1 "),
    // Two cycles share node 0.
    ("12 0 0", "0 0 0 "),
    // Node 3 is between the cycles of 1 and 2 and of 4 and 5, node 0 in front of them, and node 6 behind them.
    ("1 2 13 4 5 46 -", "0 1 1 3 4 4 6 "),
    // The same, with edges over the node between.
    ("14 2 413 4 5 64 -", "0 1 1 3 4 4 6 "),
    ("1", "no graph"),
];

#[test]
fn nodes_that_lead_to_one_another(rt: HostRuntime) -> Result<(), Fail> {
    let alloc = rt.alloc();
    for &(text, want) in COMPONENTS {
        let graph = graph_of(alloc, text)?;
        let found = first_nodes(alloc, &graph)?;
        assert_eq!(rt; found.as_str(), want, "{text}");
    }
    assert_eq!(rt; components(alloc, &[])?.len(), 0);
    Ok(())
}
