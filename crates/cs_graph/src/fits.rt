// Whether a list of successors is a graph.

ghost use Rattle.std.specs.Prelude.{◌<◌, ◌↔◌, IsTrue, All};
ghost use Rattle.cs_graph.specs.Graph.{IsGraph};

fn are_below(nodes: &[usize], count: usize) -> bool
    ensures { IsTrue result ↔ All (λ node. node < count) nodes.now }
{
    nodes.iter().all(|node| *node < count)
}

/// Whether each successor is a node.
pub fn is_graph(graph: &[Vec<usize>]) -> bool
    ensures { IsTrue result ↔ IsGraph graph.now }
{
    for successors in graph {
        if !are_below(successors, graph.len()) {
            return false;
        }
    }
    true
}
