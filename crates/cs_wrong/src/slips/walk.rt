// The tokens of a tree, by its rule numbers, also where the tree has a hole.

ghost use Rattle.std.specs.Prelude.{◌≡◌, IfOk, OnOk};
ghost use Rattle.cs_grammar.specs.Leftmost.{Derives};
ghost use Rattle.cs_grammar.specs.Walk.{IsFront, in_hand};
ghost use Rattle.cs_wrong.specs.Slips.Walk.{CanRead, Reads};

use cs_grammar::{Grammar, Symbol, put_on_top};
use std::alloc::AllocError;

/// Moves the tokens at the front of the open symbols, which stand in reverse, behind those that are done, and takes the
/// nonterminal behind them.
pub(crate) fn settle(
    done: &mut Vec<u16>,
    pending: &mut Vec<Symbol>,
) -> Result<Option<u16>, AllocError>
    ensures { IfOk result (IsFront (in_hand done.old pending.old) done.new pending.new) }
{
    while let Some(symbol) = pending.pop() {
        match symbol {
            Symbol::Token(token) => done.push(token)?,
            Symbol::Nonterminal(number) => return Ok(Some(number)),
        }
    }
    Ok(None)
}

/// Puts the right sides of rules in for the leftmost nonterminals, one after another.
pub(crate) fn read(
    grammar: &Grammar,
    rules: &[u16],
    done: &mut Vec<u16>,
    pending: &mut Vec<Symbol>,
) -> Result<(), AllocError>
    requires { CanRead grammar.now rules.now (in_hand done.old pending.old) }
    ensures { OnOk result (Reads grammar.now rules.now done.old pending.old done.new pending.new) }
{
    for number in rules {
        let _left = settle(done, pending)?;
        put_on_top(pending, grammar.rule(*number).right())?;
    }
    Ok(())
}
