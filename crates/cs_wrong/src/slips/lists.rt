// The list of a slip.

ghost use Rattle.std.specs.Prelude.{◌≡◌, ◌≤◌, All, IfOk, length};
ghost use Rattle.cs_grammar.specs.Grammar.{IsNumberOf, IsSymbolOf};
ghost use Rattle.cs_wrong.specs.Slips.Found.{AreTokensOf, ArePlacedTokens, CanFill, Fills, HasLeastPlaced};
ghost use Rattle.cs_wrong.specs.Slips.Found.{IsFitting, TellsList, TellsRule, tokens_in};
ghost use Rattle.cs_wrong.specs.Slips.Lists.{IsPlacedCost};
ghost use Rattle.cs_wrong.specs.Slips.Slips.{IsChangeOf, changed};

use crate::slips::slip::{Change, Slip};
use crate::slips::walk::{read, settle};
use cs_grammar::{Derivation, Grammar, Symbol, put_on_top};
use cs_least::{Cost, Embeds};
use std::alloc::{AllocError, Global};

// Room for as many symbols, and for as many rule numbers, is made at once.
const USUAL: usize = 32;

/// What a slip has: no list, one above the limit, or this one.
#[derive(Debug, Drop)]
pub enum SlipList {
    Nothing,
    Large,
    Tokens(Vec<u16>),
}

/// The list of a slip of the grammar: the tokens of the chosen context of the rule's left side before its hole, those of the
/// chosen trees of the changed right side, and the context's tokens behind the hole.
pub fn list_of(alloc: Global, embeds: &Embeds, slip: Slip) -> Result<SlipList, AllocError>
    requires { IsFitting embeds.now.grammar slip }
    ensures list { IfOk result (TellsList embeds.now slip) }
    ensures tokens { IfOk result (AreTokensOf embeds.now.grammar) }
    ensures few { IfOk result (λ list. length (tokens_in list) ≤ 1000000) }
{
    match slip {
        Slip::Empty => Ok(SlipList::Tokens(Vec::new(alloc))),
        Slip::Of { rule, change } => {
            let symbols = changed_symbols(alloc, embeds.grammar().rule(rule).right(), change)?;
            list_by(alloc, embeds, rule, &symbols)
        }
    }
}

// The right side of a rule with a change.
fn changed_symbols(
    alloc: Global,
    right: &[Symbol],
    change: Change,
) -> Result<Vec<Symbol>, AllocError>
    requires { IsChangeOf right.now change }
    ensures { IfOk result (λ symbols. symbols.items ≡ changed change right.now) }
{
    let mut symbols = Vec::with_capacity(alloc, USUAL)?;
    match change {
        Change::Drop(place) => {
            symbols.extend_from_slice(&right[..place as usize - 1])?;
            symbols.extend_from_slice(&right[place as usize..])?;
        }
        Change::Double(place) => {
            symbols.extend_from_slice(&right[..place as usize])?;
            symbols.extend_from_slice(&right[place as usize - 1..])?;
        }
        Change::Swap(place) => {
            symbols.extend_from_slice(&right[..place as usize - 1])?;
            symbols.extend_from_slice(&right[place as usize..place as usize + 1])?;
            symbols.extend_from_slice(&right[place as usize - 1..place as usize])?;
            symbols.extend_from_slice(&right[place as usize + 1..])?;
        }
    }
    Ok(symbols)
}

// The list of a rule whose right side these symbols take the place of.
fn list_by(
    alloc: Global,
    embeds: &Embeds,
    rule: u16,
    symbols: &[Symbol],
) -> Result<SlipList, AllocError>
    requires rule { IsNumberOf (length embeds.now.grammar.rules) rule }
    requires symbols { All (IsSymbolOf embeds.now.grammar) symbols.now }
    ensures list { IfOk result (TellsRule embeds.now rule symbols.now) }
    ensures tokens { IfOk result (AreTokensOf embeds.now.grammar) }
    ensures few { IfOk result (λ list. length (tokens_in list) ≤ 1000000) }
{
    let left = embeds.grammar().rule(rule).left();
    match placed_cost(embeds, left, symbols) {
        Cost::Never => Ok(SlipList::Nothing),
        Cost::Large => Ok(SlipList::Large),
        Cost::Least(_) => {
            let tokens = tokens_of(alloc, embeds, left, symbols)?;
            Ok(SlipList::Tokens(tokens))
        }
    }
}

// What the least context of a left side costs, with a node and least trees of symbols in its hole.
fn placed_cost(embeds: &Embeds, left: u16, symbols: &[Symbol]) -> Cost
    requires left { IsNumberOf embeds.now.grammar.nonterminals left }
    requires symbols { All (IsSymbolOf embeds.now.grammar) symbols.now }
    ensures { IsPlacedCost embeds.now left symbols.now result }
{
    let costs = embeds.costs();
    let node = costs.plus(costs.node(), costs.sum(symbols));
    costs.plus(embeds.embed(left), node)
}

// The tokens of the chosen context of a left side and of the chosen trees of symbols in its hole.
fn tokens_of(
    alloc: Global,
    embeds: &Embeds,
    left: u16,
    symbols: &[Symbol],
) -> Result<Vec<u16>, AllocError>
    requires left { IsNumberOf embeds.now.grammar.nonterminals left }
    requires symbols { All (IsSymbolOf embeds.now.grammar) symbols.now }
    requires least { HasLeastPlaced embeds.now left symbols.now }
    ensures placed { IfOk result (λ tokens.
        ArePlacedTokens embeds.now left symbols.now tokens.items) }
    ensures tokens { IfOk result (λ tokens.
        All (IsNumberOf embeds.now.grammar.tokens) tokens.items) }
    ensures few { IfOk result (λ tokens. length tokens.items ≤ 1000000) }
{
    let costs = embeds.costs();
    let _weighs = costs.weights();
    let around = embeds.around(left)?;
    let mut behind = Derivation::with_capacity(alloc, USUAL)?;
    costs.all_into(symbols, &mut behind)?;
    behind.extend_from_slice(&around.after)?;
    let tokens = tokens_by(
        alloc,
        embeds.grammar(),
        &around.before,
        symbols,
        behind.rules(),
    )?;
    Ok(tokens)
}

// The tokens by the rule numbers before a hole, the symbols in it, and the rule numbers of these and behind the hole.
fn tokens_by(
    alloc: Global,
    grammar: &Grammar,
    before: &[u16],
    symbols: &[Symbol],
    behind: &[u16],
) -> Result<Vec<u16>, AllocError>
    requires fill { CanFill grammar.now before.now symbols.now behind.now }
    requires symbols { All (IsSymbolOf grammar.now) symbols.now }
    ensures filled { IfOk result (λ t.
        Fills grammar.now before.now symbols.now behind.now t.items) }
    ensures tokens { IfOk result (λ tokens.
        All (IsNumberOf grammar.now.tokens) tokens.items) }
{
    let _well_formed = grammar.rules();
    let mut tokens = Vec::with_capacity(alloc, USUAL)?;
    let mut pending = Vec::with_capacity(alloc, USUAL)?;
    pending.push(Symbol::Nonterminal(grammar.start()))?;
    read(grammar, before, &mut tokens, &mut pending)?;
    let _hole = settle(&mut tokens, &mut pending)?;
    put_on_top(&mut pending, symbols)?;
    read(grammar, behind, &mut tokens, &mut pending)?;
    let _end = settle(&mut tokens, &mut pending)?;
    Ok(tokens)
}
