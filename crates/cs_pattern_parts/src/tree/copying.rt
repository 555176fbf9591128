// A pattern, copied.

ghost use Rattle.std.specs.Prelude.{◌≡◌, ◌≤◌, IfOk, OnOk, map};
ghost use Rattle.cs_pattern_parts.specs.Tree.Nodes.{IsMadeAgain, IsPut, below, last, top};
ghost use Rattle.cs_pattern_parts.specs.Tree.Pattern.{nesting, regex};

use crate::tree::nodes::list_nodes;
use crate::tree::pattern::Pattern;
use std::alloc::{AllocError, Global};

/// Takes the last patterns off the stack, or all of them where there are fewer.
fn take_last(stack: &mut Vec<Pattern>, count: usize) -> Result<Vec<Pattern>, AllocError>
    ensures taken { IfOk result (λ v. map regex v.items ≡ last count (map regex stack.old.items)) }
    ensures left { OnOk result
        (map regex stack.new.items ≡ below count (map regex stack.old.items)) }
{
    let from = stack.len().saturating_sub(count);
    let parts = stack.split_off(from)?;
    Ok(parts)
}

/// Takes the top off the stack.
fn take_top(stack: &mut Vec<Pattern>) -> Pattern
    ensures taken { regex result ≡ top (map regex stack.old.items) }
    ensures left { map regex stack.new.items ≡ below 1 (map regex stack.old.items) }
{
    stack.pop().unwrap_or(Pattern::Empty)
}

fn push(stack: &mut Vec<Pattern>, pattern: Pattern) -> Result<(), AllocError>
    ensures { OnOk result (IsPut stack.old.items (regex pattern) stack.new.items) }
{
    stack.push(pattern)?;
    Ok(())
}

/// Makes the node again, of the parts that are on top of the stack, and puts it in their place.
fn copy_node(alloc: Global, node: &Pattern, stack: &mut Vec<Pattern>) -> Result<(), AllocError>
    ensures { OnOk result (IsMadeAgain stack.old.items (regex node.now) stack.new.items) }
{
    match node {
        Pattern::Empty => push(stack, Pattern::Empty),
        Pattern::Class(set) => push(stack, Pattern::Class(set.duplicate())),
        Pattern::Join(parts) => {
            let copies = take_last(stack, parts.len())?;
            push(stack, Pattern::Join(copies))
        }
        Pattern::Either(parts) => {
            let copies = take_last(stack, parts.len())?;
            push(stack, Pattern::Either(copies))
        }
        Pattern::Many(_) => {
            let part = Box::new(alloc, take_top(stack))?;
            push(stack, Pattern::Many(part))
        }
    }
}

/// The same pattern.
pub fn copy(alloc: Global, pattern: &Pattern) -> Result<Pattern, AllocError>
    requires { nesting (regex pattern.now) ≤ 1000 }
    ensures { IfOk result (λ copied. regex copied ≡ regex pattern.now) }
{
    let mut nodes = list_nodes(alloc, pattern)?;
    let mut stack = Vec::new(alloc);
    while let Some(node) = nodes.pop() {
        copy_node(alloc, node, &mut stack)?;
    }
    Ok(take_top(&mut stack))
}
