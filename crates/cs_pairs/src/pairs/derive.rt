// The codes of the chosen trees of pairs.

ghost use Rattle.std.specs.Prelude.{◌≡◌, ◌<◌, ◌+◌, IfOk, length, take, drop, slice_index_or};
ghost use Rattle.cs_grammar.specs.declared.symbol.Symbol.{Symbol};
ghost use Rattle.cs_grammar.specs.Grammar.{IsNumberOf, IsSymbolOf};
ghost use Rattle.cs_least.specs.Embed.Contexts.{AreContextsOf};
ghost use Rattle.cs_pairs.specs.Kinds.Kinds.{IsKind};
ghost use Rattle.cs_pairs.specs.Kinds.Parts.{HasSmallOfKind};
ghost use Rattle.cs_pairs.specs.Pairs.ChosenPair.{IsCodeOfKind};
ghost use Rattle.cs_pairs.specs.Pairs.Clauses.{IsMeetingOf, IsCodeOfTokens};

use crate::kinds::{Kinds, TreeKind, kind_into, kind_onto};
use crate::pairs::kept::Kept;
use crate::pairs::meeting::{Meeting, TokenPair};
use cs_grammar::{Derivation, Symbol};
use std::alloc::{AllocError, Global};

// Room for as many rule numbers is made at once.
const USUAL_RULES: usize = 32;

// The code of the chosen tree of a kind and a symbol.
pub(crate) fn kind_code(
    alloc: Global,
    kinds: &Kinds,
    kind: TreeKind,
    symbol: Symbol,
) -> Result<Derivation, AllocError>
    requires kind { IsKind kinds.now.grammar.tokens kind }
    requires symbol { IsSymbolOf kinds.now.grammar symbol }
    requires small { HasSmallOfKind kinds.now.weights kinds.now.grammar kind symbol }
    ensures { IfOk result (IsCodeOfKind kinds.now.weights kinds.now.grammar kind symbol) }
{
    let mut derivation = Derivation::with_capacity(alloc, USUAL_RULES)?;
    kind_into(alloc, kinds, kind, &[symbol], &mut derivation)?;
    Ok(derivation)
}

// A symbol of a right side, and what stands before it and behind it.
#[derive(Clone, Copy)]
struct Split<'a> {
    before: &'a [Symbol],
    symbol: Symbol,
    behind: &'a [Symbol],
}

fn split_at(right: &[Symbol], place: usize) -> Split<'_>
    requires { place < length right.now }
    ensures before { result.before.now ≡ take place right.now }
    ensures symbol { (d : Symbol) → result.symbol ≡ slice_index_or right.now place d }
    ensures behind { result.behind.now ≡ drop (place + 1) right.now }
{
    Split {
        before: &right[..place],
        symbol: right[place],
        behind: &right[place + 1..],
    }
}

// The code of the chosen tree of two tokens, which meet in it at this rule and place.
pub(crate) fn seam_code(
    alloc: Global,
    kinds: &Kinds,
    kept: &mut Kept,
    tokens: TokenPair,
    at: Meeting,
) -> Result<Derivation, AllocError>
    requires contexts { AreContextsOf kinds.now kept.old.contexts }
    requires first { IsNumberOf kinds.now.grammar.tokens tokens.first }
    requires second { IsNumberOf kinds.now.grammar.tokens tokens.second }
    requires meeting { IsMeetingOf kinds.now tokens at }
    ensures code { IfOk result (IsCodeOfTokens kinds.now tokens) }
    ensures contexts { AreContextsOf kinds.now kept.new.contexts }
{
    let rule = kinds.grammar().rule(at.rule);
    let parts = split_at(rule.right(), at.place as usize);
    let around = kept.contexts.take(kinds.embeds(), rule.left())?;
    let mut derivation = Derivation::with_capacity(alloc, USUAL_RULES)?;
    derivation.extend_from_slice(&around.context.before)?;
    derivation.push(at.rule)?;
    kinds.costs().all_into(parts.before, &mut derivation)?;
    let last = [parts.symbol];
    kind_onto(
        kinds,
        TreeKind::Ends(tokens.first),
        &last,
        &mut kept.pending,
        &mut derivation,
    )?;
    kind_onto(
        kinds,
        TreeKind::Begins(tokens.second),
        parts.behind,
        &mut kept.pending,
        &mut derivation,
    )?;
    derivation.extend_from_slice(&around.context.after)?;
    kept.contexts.keep(around);
    Ok(derivation)
}
