// Stacks of symbols.

ghost use Rattle.std.specs.Prelude.{OnOk, OnErr};
ghost use Rattle.cs_grammar.specs.Stack.{AreOnTop, AreLastOnTop};

use crate::symbol::Symbol;
use std::alloc::AllocError;

/// Puts symbols on top of a stack, the first of them on top. After a refusal the last of them may be there.
pub fn put_on_top(stack: &mut Vec<Symbol>, symbols: &[Symbol]) -> Result<(), AllocError>
    ensures ok { OnOk result (AreOnTop symbols.now stack.old.items stack.new.items) }
    ensures err { OnErr result (AreLastOnTop symbols.now stack.old.items stack.new.items) }
{
    for place in (0..symbols.len()).rev() {
        stack.push(symbols[place])?;
    }
    Ok(())
}
