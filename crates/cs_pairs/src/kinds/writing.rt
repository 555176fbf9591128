// The codes of chosen trees of kinds, written from left to right.

ghost use Rattle.std.specs.Prelude.{◌≡◌, [], reverse, IfOk, OnOk, OnErr, All};
ghost use Rattle.cs_grammar.specs.Grammar.{IsSymbolOf, IsNumberOf};
ghost use Rattle.cs_grammar.specs.Weights.{IsMeasure};
ghost use Rattle.cs_least.specs.Cost.Parts.{IsGrown};
ghost use Rattle.cs_pairs.specs.Kinds.Kinds.{IsKind};
ghost use Rattle.cs_pairs.specs.Kinds.Parts.{kind_at, IsPartOf, HaveSmallOfKind};
ghost use Rattle.cs_pairs.specs.Kinds.Clauses.{ArePutFirst, OpensUp, HasSmallIn, TakesOnIn, ArePending, Writes, AppendsIn};

use crate::kinds::kind::TreeKind;
use crate::kinds::kinds::Kinds;
use crate::kinds::known::chosen_root;
use crate::kinds::roots::placed_in;
use cs_grammar::{Derivation, Symbol};
use std::alloc::{AllocError, Global};

// Room for as many pending parts is made at once.
const USUAL_PARTS: usize = 16;

// What is still to be written: the code of the chosen tree of a kind and a symbol.
#[derive(Clone, Copy, Debug)]
pub(crate) struct Part {
    kind: TreeKind,
    symbol: Symbol,
}

// The kind of the tree at an index of a list that is of a kind, where the tree at `place` is of the kind itself.
fn kind_at(kind: TreeKind, place: usize, index: usize) -> TreeKind
    ensures { result ≡ kind_at kind place index }
{
    if index < place {
        kind.before()
    } else if index == place {
        kind
    } else {
        kind.behind()
    }
}

// Puts the parts of a list of trees in front of what is pending, which stands in reverse. Tokens have none: their leaves have no
// code.
fn put_first(
    pending: &mut Vec<Part>,
    kind: TreeKind,
    place: usize,
    symbols: &[Symbol],
) -> Result<(), AllocError>
    ensures { OnOk result (ArePutFirst kind place symbols.now pending.old pending.new) }
{
    for index in (0..symbols.len()).rev() {
        let symbol = symbols[index];
        if let Symbol::Nonterminal(_) = symbol {
            pending.push(Part {
                kind: kind_at(kind, place, index),
                symbol,
            })?;
        }
    }
    Ok(())
}

// Writes the rule at the root, and puts its children in front of what is pending.
fn open_part(
    kinds: &Kinds,
    kind: TreeKind,
    left: u16,
    pending: &mut Vec<Part>,
    into: &mut Derivation,
) -> Result<(), AllocError>
    requires kind { IsKind kinds.now.grammar.tokens kind }
    requires left { IsNumberOf kinds.now.grammar.nonterminals left }
    requires small { HasSmallIn kinds.now kind (Symbol.Nonterminal left) }
    ensures ok { OnOk result
        (OpensUp kinds.now kind left pending.old pending.new into.old into.new) }
    ensures grown { IsGrown into.old into.new }
{
    let root = chosen_root(kinds, kind, left);
    into.push(root.number)?;
    let right = kinds.grammar().rule(root.number).right();
    put_first(pending, kind, root.place, right)
}

// Writes a part, or what stands at the root of its tree.
fn take_on(
    kinds: &Kinds,
    part: Part,
    pending: &mut Vec<Part>,
    into: &mut Derivation,
) -> Result<(), AllocError>
    requires measure { IsMeasure kinds.now.weights }
    requires part { IsPartOf kinds.now.grammar part }
    requires small { HasSmallIn kinds.now part.kind part.symbol }
    ensures taken { OnOk result
        (TakesOnIn kinds.now part pending.old pending.new into.old into.new) }
    ensures grown { IsGrown into.old into.new }
{
    match part.symbol {
        Symbol::Token(_) => Ok(()),
        Symbol::Nonterminal(left) => match part.kind {
            TreeKind::Any => kinds.costs().least_into(part.symbol, into),
            _ => open_part(kinds, part.kind, left, pending, into),
        },
    }
}

// Writes what is pending, which stands in reverse. Each step writes a node or more, and they are within the limit. After a
// refusal a part of it may be there.
fn write_some(
    kinds: &Kinds,
    pending: &mut Vec<Part>,
    into: &mut Derivation,
) -> Result<(), AllocError>
    requires { ArePending kinds.now pending.old }
    ensures written { OnOk result (Writes kinds.now pending.old into.old into.new) }
    ensures grown { IsGrown into.old into.new }
{
    let limit = kinds.limit();
    for _ in 0..limit {
        let Some(part) = pending.pop() else {
            return Ok(());
        };
        take_on(kinds, part, pending, into)?;
    }
    Ok(())
}

// Writes what is pending, which stands in reverse. A refusal takes back what was written.
fn write(kinds: &Kinds, pending: &mut Vec<Part>, into: &mut Derivation) -> Result<(), AllocError>
    requires { ArePending kinds.now pending.old }
    ensures written { OnOk result (Writes kinds.now pending.old into.old into.new) }
    ensures refused { OnErr result (into.new ≡ into.old) }
{
    let before = into.rules().len();
    let written = write_some(kinds, pending, into);
    if written.is_err() {
        into.truncate(before);
    }
    written
}

// Room for pending parts.
fn no_parts(alloc: Global) -> Result<Vec<Part>, AllocError>
    ensures { IfOk result (λ parts. parts.items ≡ []) }
{
    Vec::with_capacity(alloc, USUAL_PARTS)
}

// What `kind_into` does, with room for pending parts that is kept. What is in it is left out.
pub(crate) fn kind_onto(
    kinds: &Kinds,
    kind: TreeKind,
    symbols: &[Symbol],
    pending: &mut Vec<Part>,
    into: &mut Derivation,
) -> Result<(), AllocError>
    requires kind { IsKind kinds.now.grammar.tokens kind }
    requires symbols { All (IsSymbolOf kinds.now.grammar) symbols.now }
    requires small { HaveSmallOfKind kinds.now.weights kinds.now.grammar kind symbols.now }
    ensures ok { OnOk result (AppendsIn kinds.now kind symbols.now into.old into.new) }
    ensures err { OnErr result (into.new ≡ into.old) }
{
    let placed = placed_in(kinds, &kinds.rows_beside(kind), symbols);
    pending.clear();
    put_first(pending, kind, placed.place, symbols)?;
    write(kinds, pending, into)
}

/// Appends the codes of the chosen trees of these symbols that are of the kind together, from left to right. Some such trees
/// are within the limit of the weights. After a refusal `into` is unchanged.
pub fn kind_into(
    alloc: Global,
    kinds: &Kinds,
    kind: TreeKind,
    symbols: &[Symbol],
    into: &mut Derivation,
) -> Result<(), AllocError>
    requires kind { IsKind kinds.now.grammar.tokens kind }
    requires symbols { All (IsSymbolOf kinds.now.grammar) symbols.now }
    requires small { HaveSmallOfKind kinds.now.weights kinds.now.grammar kind symbols.now }
    ensures ok { OnOk result (AppendsIn kinds.now kind symbols.now into.old into.new) }
    ensures err { OnErr result (into.new ≡ into.old) }
{
    let mut pending = no_parts(alloc)?;
    kind_onto(kinds, kind, symbols, &mut pending, into)
}
