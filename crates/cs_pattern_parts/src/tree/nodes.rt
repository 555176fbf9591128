// The nodes of a pattern, on a stack in memory.

ghost use Rattle.std.specs.Prelude.{◌≡◌, IfOk, OnOk, map};
ghost use Rattle.cs_pattern_parts.specs.Tree.Nodes.{ArePut, nodes_of, parts_in, values};
ghost use Rattle.cs_pattern_parts.specs.Tree.Pattern.{regex};

use crate::tree::pattern::Pattern;
use std::alloc::{AllocError, Global};

fn push_all<'p>(parts: &'p [Pattern], pending: &mut Vec<&'p Pattern>) -> Result<(), AllocError>
    ensures { OnOk result (ArePut pending.old.items (map regex parts.now) pending.new.items) }
{
    for part in parts {
        pending.push(part)?;
    }
    Ok(())
}

/// Puts the parts of the node on the stack, the last on top.
fn open<'p>(node: &'p Pattern, pending: &mut Vec<&'p Pattern>) -> Result<(), AllocError>
    ensures { OnOk result
        (ArePut pending.old.items (parts_in (regex node.now)) pending.new.items) }
{
    match node {
        Pattern::Empty => Ok(()),
        Pattern::Class(_) => Ok(()),
        Pattern::Join(parts) => push_all(parts, pending),
        Pattern::Either(parts) => push_all(parts, pending),
        Pattern::Many(part) => {
            pending.push(part)?;
            Ok(())
        }
    }
}

/// The nodes of the pattern: each before its parts, and of these the last first.
pub(crate) fn list_nodes(alloc: Global, pattern: &Pattern) -> Result<Vec<&Pattern>, AllocError>
    ensures { IfOk result (λ nodes. values nodes.items ≡ nodes_of (regex pattern.now)) }
{
    let mut nodes = Vec::new(alloc);
    let mut pending = Vec::new(alloc);
    pending.push(pattern)?;
    while let Some(node) = pending.pop() {
        nodes.push(node)?;
        open(node, &mut pending)?;
    }
    Ok(nodes)
}
