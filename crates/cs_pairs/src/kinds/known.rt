// Roots of chosen trees that are found ahead, each once, where a grammar has few of them.

ghost use Rattle.std.specs.Prelude.{◌≡◌, IfOk, IfSome, IsTrue, OnOk};
ghost use Rattle.cs_grammar.specs.Grammar.{IsNumberOf};
ghost use Rattle.cs_grammar.specs.Weights.{Weighed};
ghost use Rattle.cs_pairs.specs.Kinds.Kinds.{IsKind};
ghost use Rattle.cs_pairs.specs.Kinds.Clauses.{HasSmallIn};
ghost use Rattle.cs_pairs.specs.Kinds.Beside.{AreRowsBeside, IsRootIn};
ghost use Rattle.cs_pairs.specs.Kinds.Known.{AreKnownIn, IsKnownIn, IsSlotIn};

use crate::kinds::kind::TreeKind;
use crate::kinds::kinds::{KindRows, Kinds};
use crate::kinds::roots::{Root, root_of};
use cs_grammar::{Symbol, place_of};
use cs_least::Cost;
use std::alloc::{AllocError, Global};

// No root is found ahead where there are more rules, counted once for each token.
const MOST_RULES: usize = 32_768;

// The root of the chosen tree of a kind and a nonterminal.
#[derive(Clone, Copy, Debug)]
pub(crate) struct KnownRoot {
    pub(crate) kind: TreeKind,
    pub(crate) left: u16,
    pub(crate) root: Root,
}

// Where a root is looked for. Any place would do.
fn slot_of(nonterminals: u16, kind: TreeKind, place: usize) -> usize {
    let row = match kind {
        TreeKind::Any | TreeKind::Empty => 0,
        TreeKind::Begins(token) => (2 * token as usize).saturating_sub(1),
        TreeKind::Ends(token) => 2 * token as usize,
    };
    row.wrapping_mul(nonterminals as usize).wrapping_add(place)
}

fn is_same(a: TreeKind, b: TreeKind) -> bool
    ensures { IsTrue result → a ≡ b }
{
    match (a, b) {
        (TreeKind::Empty, TreeKind::Empty) => true,
        (TreeKind::Begins(first), TreeKind::Begins(second)) => first == second,
        (TreeKind::Ends(first), TreeKind::Ends(second)) => first == second,
        _ => false,
    }
}

// The root in a slot, where it is that of this kind and this nonterminal.
fn root_in(slot: &Option<KnownRoot>, kind: TreeKind, left: u16) -> Option<Root>
    ensures { (v : Weighed) → IsSlotIn v slot.now → IfSome result (IsRootIn v kind left) }
{
    match slot {
        Some(known) => {
            if known.left == left && is_same(known.kind, kind) {
                Some(known.root)
            } else {
                None
            }
        }
        None => None,
    }
}

fn known_root(kinds: &Kinds, kind: TreeKind, left: u16) -> Option<Root>
    requires { IsNumberOf kinds.now.grammar.nonterminals left }
    ensures { IfSome result (IsRootIn kinds.now kind left) }
{
    let slot = slot_of(kinds.grammar().nonterminals(), kind, place_of(left));
    match kinds.known().get(slot) {
        Some(slot) => root_in(slot, kind, left),
        None => None,
    }
}

// The root of the chosen tree of a kind and a nonterminal.
#[inline(always)]
pub(crate) fn chosen_root(kinds: &Kinds, kind: TreeKind, left: u16) -> Root
    requires kind { IsKind kinds.now.grammar.tokens kind }
    requires left { IsNumberOf kinds.now.grammar.nonterminals left }
    requires small { HasSmallIn kinds.now kind (Symbol.Nonterminal left) }
    ensures { IsRootIn kinds.now kind left result }
{
    match known_root(kinds, kind, left) {
        Some(root) => root,
        None => root_of(kinds, &kinds.rows_beside(kind), left),
    }
}

// The root of a nonterminal, where it has a tree of the kind within the limit.
fn found_root(kinds: &Kinds, rows: &KindRows, left: u16) -> Option<KnownRoot>
    requires rows { AreRowsBeside kinds.now rows.now }
    requires left { IsNumberOf kinds.now.grammar.nonterminals left }
    ensures { IfSome result (IsKnownIn kinds.now) }
{
    match kinds.told_by(rows.own, rows.kind, Symbol::Nonterminal(left)) {
        Cost::Least(_) => Some(KnownRoot {
            kind: rows.kind,
            left,
            root: root_of(kinds, rows, left),
        }),
        Cost::Large | Cost::Never => None,
    }
}

// Appends the roots of a kind, nonterminal by nonterminal.
fn push_roots(
    kinds: &Kinds,
    kind: TreeKind,
    roots: &mut Vec<Option<KnownRoot>>,
) -> Result<(), AllocError>
    requires kind { IsKind kinds.now.grammar.tokens kind }
    requires roots { AreKnownIn kinds.now roots.old.items }
    ensures { OnOk result (AreKnownIn kinds.now roots.new.items) }
{
    let rows = kinds.rows_beside(kind);
    for place in 0..kinds.grammar().nonterminals() {
        roots.push(found_root(kinds, &rows, place + 1))?;
    }
    Ok(())
}

// The roots of all kinds that have a token, and of trees of empty yield, where they are few.
pub(crate) fn known_roots(
    alloc: Global,
    kinds: &Kinds,
) -> Result<Vec<Option<KnownRoot>>, AllocError>
    ensures { IfOk result (λ roots. AreKnownIn kinds.now roots.items) }
{
    let grammar = kinds.grammar();
    let mut roots = Vec::new(alloc);
    let rules = grammar.rules().len();
    if rules.saturating_mul(grammar.tokens() as usize) > MOST_RULES {
        return Ok(roots);
    }
    push_roots(kinds, TreeKind::Empty, &mut roots)?;
    for place in 0..grammar.tokens() {
        push_roots(kinds, TreeKind::Begins(place + 1), &mut roots)?;
        push_roots(kinds, TreeKind::Ends(place + 1), &mut roots)?;
    }
    Ok(roots)
}
