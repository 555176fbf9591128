// The codes of chosen trees, written from left to right.

ghost use Rattle.std.specs.Prelude.{◌≡◌, All, IfOk, OnErr, OnOk};
ghost use Rattle.cs_grammar.specs.Grammar.{IsNumberOf};
ghost use Rattle.std.specs.List.{list_all};
ghost use Rattle.cs_least.specs.Cost.Parts.{is_token, IsSmallIn, AreSmallIn, IsGrown, IsRootIn};
ghost use Rattle.cs_least.specs.Cost.Parts.{IsWithin, OpensIn};
ghost use Rattle.cs_least.specs.Cost.Parts.{WritesAll, WritesTexts, WritesTree};

use crate::cost::trees::Trees;
use cs_grammar::{Derivation, Symbol, place_of, put_on_top};
use std::alloc::AllocError;

// Room for as many pending symbols is made at once.
const USUAL_SYMBOLS: usize = 32;

fn is_token(symbol: Symbol) -> bool
    ensures { result ≡ is_token symbol }
{
    matches!(symbol, Symbol::Token(_))
}

// Whether the symbols are tokens, whose trees have no code.
fn are_tokens(symbols: &[Symbol]) -> bool
    ensures { result ≡ list_all is_token symbols.now }
{
    symbols.iter().all(|symbol| is_token(*symbol))
}

// Writes the number of a nonterminal's first rule, and gives the rule's right side.
fn push_root<'t>(
    trees: &'t Trees<'_>,
    left: u16,
    out: &mut Derivation,
) -> Result<&'t [Symbol], AllocError>
    requires left { IsNumberOf trees.now.grammar.nonterminals left }
    requires small { IsSmallIn trees.now left }
    ensures root { IfOk result (λ right. IsRootIn trees.now left right.now out.old out.new) }
    ensures grown { IsGrown out.old out.new }
{
    let Some(number) = trees.firsts[place_of(left)] else {
        unreachable!()
    };
    out.push(number)?;
    Ok(trees.grammar.rule(number).right())
}

// Writes the number of a nonterminal's first rule, and puts the rule's right side on top of what is pending.
fn open_up(
    trees: &Trees,
    left: u16,
    pending: &mut Vec<Symbol>,
    out: &mut Derivation,
) -> Result<(), AllocError>
    requires left { IsNumberOf trees.now.grammar.nonterminals left }
    requires small { IsSmallIn trees.now left }
    ensures opened { OnOk result (OpensIn trees.now left pending.old pending.new out.old out.new) }
    ensures grown { IsGrown out.old out.new }
{
    let right = push_root(trees, left, out)?;
    put_on_top(pending, right)
}

// Writes the codes of the chosen trees of the pending symbols, the first of which is on top. After a refusal a part of them may
// be there.
fn write_some(
    trees: &Trees,
    pending: &mut Vec<Symbol>,
    out: &mut Derivation,
) -> Result<(), AllocError>
    requires small { AreSmallIn trees.now pending.old }
    ensures written { OnOk result (WritesTexts trees.now pending.old out.old out.new) }
    ensures grown { IsGrown out.old out.new }
{
    let _table = &trees.table;
    while let Some(symbol) = pending.pop() {
        if let Symbol::Nonterminal(left) = symbol {
            open_up(trees, left, pending, out)?;
        }
    }
    Ok(())
}

// Writes the code of the chosen tree of a nonterminal. Nothing is pending where its root stands above tokens alone.
fn write_tree(trees: &Trees, left: u16, out: &mut Derivation) -> Result<(), AllocError>
    requires { IsWithin trees.now.weights trees.now.grammar (Symbol.Nonterminal left) }
    ensures written { OnOk result (WritesTree trees.now left out.old out.new) }
    ensures grown { IsGrown out.old out.new }
{
    let alloc = *trees.table.allocator();
    let right = push_root(trees, left, out)?;
    if are_tokens(right) {
        return Ok(());
    }
    let mut pending = Vec::with_capacity(alloc, USUAL_SYMBOLS)?;
    put_on_top(&mut pending, right)?;
    write_some(trees, &mut pending, out)
}

// Writes the codes of the chosen trees of symbols. After a refusal a part of them may be there.
fn write_each(trees: &Trees, symbols: &[Symbol], out: &mut Derivation) -> Result<(), AllocError>
    requires small { All (IsWithin trees.now.weights trees.now.grammar) symbols.now }
    ensures written { OnOk result (WritesAll trees.now symbols.now out.old out.new) }
    ensures grown { IsGrown out.old out.new }
{
    for symbol in symbols {
        if let Symbol::Nonterminal(left) = *symbol {
            write_tree(trees, left, out)?;
        }
    }
    Ok(())
}

// Writes the codes of the chosen trees of symbols. A refusal takes back what was written.
pub(crate) fn write(
    trees: &Trees,
    symbols: &[Symbol],
    out: &mut Derivation,
) -> Result<(), AllocError>
    requires small { All (IsWithin trees.now.weights trees.now.grammar) symbols.now }
    ensures written { OnOk result (WritesAll trees.now symbols.now out.old out.new) }
    ensures refused { OnErr result (out.new ≡ out.old) }
{
    let before = out.rules().len();
    let written = write_each(trees, symbols, out);
    if written.is_err() {
        out.truncate(before);
    }
    written
}
