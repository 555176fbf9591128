// The tokens of a chain's tree in three parts: those before the node with the inner rule, its own, and those behind it.

ghost use Rattle.std.specs.Prelude.{[], ◌∷◌, IfOk};
ghost use Rattle.cs_grammar.specs.Walk.{in_hand, IsFront};
ghost use Rattle.cs_chain_text.specs.Rows.Around.{AreTokensIn, Finds, IsAround, PutsIn};

use cs_grammar::{Grammar, Symbol, put_on_top};
use std::alloc::{AllocError, Global};

// The tokens before a node of a nonterminal, and those behind it.
#[derive(Drop)]
pub(crate) struct Around {
    pub(crate) left: u16,
    pub(crate) first: Vec<u16>,
    pub(crate) last: Vec<u16>,
}

// Moves the tokens in front of the open symbols, which stand in reverse, behind those that are done, and takes the nonterminal
// behind them.
fn settle(done: &mut Vec<u16>, pending: &mut Vec<Symbol>) -> Result<Option<u16>, AllocError>
    ensures { IfOk result (IsFront (in_hand done.old pending.old) done.new pending.new) }
{
    while let Some(symbol) = pending.pop() {
        match symbol {
            Symbol::Token(token) => done.push(token)?,
            Symbol::Nonterminal(nonterminal) => return Ok(Some(nonterminal)),
        }
    }
    Ok(None)
}

// Puts in a rule for the leftmost nonterminal. False where there is none, or the rule isn't one of it.
fn put_in(
    grammar: &Grammar,
    number: u16,
    done: &mut Vec<u16>,
    pending: &mut Vec<Symbol>,
) -> Result<bool, AllocError>
    ensures { IfOk result (PutsIn grammar.now (number ∷ [])
        done.old pending.old done.new pending.new) }
{
    let Some(left) = settle(done, pending)? else {
        return Ok(false);
    };
    let Some(rule) = grammar.get_rule(number) else {
        return Ok(false);
    };
    if rule.left() != left {
        return Ok(false);
    }
    put_on_top(pending, rule.right())?;
    Ok(true)
}

// The same of rules one after another.
fn put_all_in(
    grammar: &Grammar,
    rules: &[u16],
    done: &mut Vec<u16>,
    pending: &mut Vec<Symbol>,
) -> Result<bool, AllocError>
    ensures { IfOk result (PutsIn grammar.now rules.now done.old pending.old done.new pending.new) }
{
    for number in rules {
        if !put_in(grammar, *number, done, pending)? {
            return Ok(false);
        }
    }
    Ok(true)
}

// Those around a node, by the rule numbers before it and behind it. None where these don't stand around a node.
pub(crate) fn tokens_around(
    alloc: Global,
    grammar: &Grammar,
    before: &[u16],
    behind: &[u16],
) -> Result<Option<Around>, AllocError>
    ensures { Finds (IsAround grammar.now before.now behind.now) result }
{
    let mut first = Vec::new(alloc);
    let mut pending = Vec::new(alloc);
    pending.push(Symbol::Nonterminal(grammar.start()))?;
    if !put_all_in(grammar, before, &mut first, &mut pending)? {
        return Ok(None);
    }
    let Some(left) = settle(&mut first, &mut pending)? else {
        return Ok(None);
    };
    let mut last = Vec::new(alloc);
    if !put_all_in(grammar, behind, &mut last, &mut pending)? {
        return Ok(None);
    }
    match settle(&mut last, &mut pending)? {
        None => Ok(Some(Around { left, first, last })),
        Some(_) => Ok(None),
    }
}

// Those of a node of a nonterminal, by its code. None where that isn't one of such a node.
pub(crate) fn tokens_in(
    alloc: Global,
    grammar: &Grammar,
    left: u16,
    code: &[u16],
) -> Result<Option<Vec<u16>>, AllocError>
    ensures { Finds (λ tokens. AreTokensIn grammar.now left code.now tokens.items) result }
{
    let mut tokens = Vec::new(alloc);
    let mut pending = Vec::new(alloc);
    pending.push(Symbol::Nonterminal(left))?;
    if !put_all_in(grammar, code, &mut tokens, &mut pending)? {
        return Ok(None);
    }
    match settle(&mut tokens, &mut pending)? {
        None => Ok(Some(tokens)),
        Some(_) => Ok(None),
    }
}
