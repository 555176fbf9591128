// The walk over a list of rule numbers, each put in for the leftmost nonterminal.

ghost use Rattle.std.specs.Prelude.{◌≡◌, [], ◌++◌, OnOk, IfOk, IfNone, IfSome};
ghost use Rattle.cs_grammar.specs.Leftmost.{HasNoRuleOf, IsRuleFrom};
ghost use Rattle.cs_grammar.specs.Walk.{IsExpansion, IsLed, ahead, kept, reached};

use crate::derivation::Derivation;
use crate::grammar::Grammar;
use crate::rule::Rule;
use crate::symbol::Symbol;
use std::alloc::{AllocError, Global};

// Room for as many symbols is made at once.
pub(crate) const USUAL_SYMBOLS: usize = 32;

// Room for what is kept of as many right sides is made at once.
pub(crate) const USUAL_SLICES: usize = 32;

// What a list of rule numbers comes to. Places are counted from 0.
#[derive(Debug, Drop)]
pub(crate) enum Expansion {
    Yield(Vec<u16>),
    WrongRule(usize),
    TooFew,
    TooMany(usize),
}

// Puts the tokens in front of these symbols behind those that are done, and gives the nonterminal behind them, if there is one,
// with what stands behind it. It is inlined, as the three below, since this is most of what the loops of a walk do.
#[inline(always)]
fn push_leading<'a>(
    symbols: &'a [Symbol],
    done: &mut Vec<u16>,
) -> Result<Option<(u16, &'a [Symbol])>, AllocError>
    ensures { IfOk result (IsLed symbols.now done.old done.new) }
{
    for (place, symbol) in symbols.iter().enumerate() {
        match *symbol {
            Symbol::Token(t) => done.push(t)?,
            Symbol::Nonterminal(n) => return Ok(Some((n, &symbols[place + 1..]))),
        }
    }
    Ok(None)
}

// Keeps symbols to be read before those that are kept.
#[inline(always)]
fn keep<'a>(pending: &mut Vec<&'a [Symbol]>, symbols: &'a [Symbol]) -> Result<(), AllocError>
    ensures { OnOk result (kept pending.new ≡ symbols.now ++ kept pending.old) }
{
    if !symbols.is_empty() {
        pending.push(symbols)?;
    }
    Ok(())
}

// Reads what is kept up to a nonterminal: puts the tokens in front of it behind those that are done, and takes it.
#[inline(always)]
fn settle<'a>(
    done: &mut Vec<u16>,
    pending: &mut Vec<&'a [Symbol]>,
) -> Result<Option<u16>, AllocError>
    ensures { IfOk result (λ next.
        ahead done.old [] pending.old ≡ reached done.new pending.new next) }
{
    while let Some(symbols) = pending.pop() {
        if let Some((n, behind)) = push_leading(symbols, done)? {
            keep(pending, behind)?;
            return Ok(Some(n));
        }
    }
    Ok(None)
}

// Reads these symbols, and then what is kept, in the same way.
#[inline(always)]
pub(crate) fn read<'a>(
    symbols: &'a [Symbol],
    done: &mut Vec<u16>,
    pending: &mut Vec<&'a [Symbol]>,
) -> Result<Option<u16>, AllocError>
    ensures { IfOk result (λ next.
        ahead done.old symbols.now pending.old ≡ reached done.new pending.new next) }
{
    if let Some((n, behind)) = push_leading(symbols, done)? {
        keep(pending, behind)?;
        return Ok(Some(n));
    }
    settle(done, pending)
}

// The rule of that number, where there is one with this left side.
fn rule_of(grammar: &Grammar, number: u16, left: u16) -> Option<&Rule>
    ensures none { IfNone result (HasNoRuleOf grammar.now number left) }
    ensures some { IfSome result (λ rule. IsRuleFrom grammar.now number left rule.now) }
{
    let rule = grammar.get_rule(number)?;
    if rule.left() == left {
        Some(rule)
    } else {
        None
    }
}

// What the rule numbers come to.
pub(crate) fn walk(
    alloc: Global,
    grammar: &Grammar,
    derivation: &Derivation,
) -> Result<Expansion, AllocError>
    ensures { IfOk result (IsExpansion grammar.now derivation.now) }
{
    let mut done = Vec::with_capacity(alloc, USUAL_SYMBOLS)?;
    let mut pending = Vec::with_capacity(alloc, USUAL_SLICES)?;
    let mut next = Some(grammar.start());
    for (at, number) in derivation.rules().iter().enumerate() {
        let Some(left) = next else {
            return Ok(Expansion::TooMany(at));
        };
        let Some(rule) = rule_of(grammar, *number, left) else {
            return Ok(Expansion::WrongRule(at));
        };
        next = read(rule.right(), &mut done, &mut pending)?;
    }
    match next {
        None => Ok(Expansion::Yield(done)),
        Some(_) => Ok(Expansion::TooFew),
    }
}
