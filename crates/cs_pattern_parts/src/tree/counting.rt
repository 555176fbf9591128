// The leaves of a pattern, counted.

ghost use Rattle.std.specs.Prelude.{◌≡◌, ◌<◌, ◌^◌, IfOk};
ghost use Rattle.cs_pattern_parts.specs.Tree.Nodes.{own_leaves};
ghost use Rattle.cs_pattern_parts.specs.Tree.Pattern.{leaves, regex};

use crate::tree::nodes::list_nodes;
use crate::tree::pattern::Pattern;
use std::alloc::{AllocError, Global};

fn own_leaves(node: &Pattern) -> u32
    ensures { result ≡ own_leaves (regex node.now) }
{
    match node {
        Pattern::Empty => 1,
        Pattern::Class(_) => 1,
        Pattern::Join(_) => 0,
        Pattern::Either(_) => 0,
        Pattern::Many(_) => 0,
    }
}

/// How many leaves the pattern has: classes and empty patterns.
pub fn leaf_count(alloc: Global, pattern: &Pattern) -> Result<u32, AllocError>
    requires { leaves (regex pattern.now) < 2 ^ 32 }
    ensures { IfOk result (λ count. count ≡ leaves (regex pattern.now)) }
{
    let mut count = 0;
    for node in &list_nodes(alloc, pattern)? {
        count += own_leaves(node);
    }
    Ok(count)
}
