// Nonterminals that have empty trees, and a least such tree of each.

ghost use Rattle.std.specs.Prelude.{◌≡◌, ◌⊎◌, ◌↔◌, ◌+◌, ℕ, Some, All, IsTrue, IsSome, IfOk, IfSome, IfNone, length, slice_get};
ghost use Rattle.cs_member.specs.Tables.Tables.{AreEmpties, IsSaturated, IsFurther, HasEmpty, IsWithin};
ghost use Rattle.cs_member.specs.Tables.Asked.{HasRounds};

use cs_grammar::{Grammar, Symbol, number_of};
use std::alloc::{AllocError, Global};

pub(crate) fn has_empty(empties: &[u16], symbol: Symbol) -> bool
    requires { IsWithin (length empties.now) symbol }
    ensures { IsTrue result ↔ HasEmpty empties.now symbol }
{
    match symbol {
        Symbol::Token(_) => false,
        Symbol::Nonterminal(nonterminal) => empties[nonterminal as usize] != 0,
    }
}

pub(crate) fn have_empty(empties: &[u16], symbols: &[Symbol]) -> bool
    requires { All (IsWithin (length empties.now)) symbols.now }
    ensures { IsTrue result ↔ All (HasEmpty empties.now) symbols.now }
{
    for symbol in symbols {
        if !has_empty(empties, *symbol) {
            return false;
        }
    }
    true
}

// A rule whose symbols have empty trees, and the size of its least, where that is below 2 to the 64.
#[derive(Clone, Copy, Debug)]
struct Found {
    rule: u16,
    size: u64,
}

// The size of a node with the least empty trees of these symbols, by the sizes for each nonterminal.
fn size_of(sizes: &[u64], symbols: &[Symbol]) -> u64
    requires { All (IsWithin (length sizes.now)) symbols.now }
{
    let mut size = 1u64;
    for symbol in symbols {
        if let Symbol::Nonterminal(nonterminal) = *symbol {
            size = size.saturating_add(sizes[nonterminal as usize]);
        }
    }
    size
}

fn lesser(least: Option<Found>, found: Found) -> Option<Found>
    ensures { (result ≡ Some found) ⊎ (IsSome least × (result ≡ least)) }
{
    match least {
        Some(known) if known.size <= found.size => least,
        _ => Some(found),
    }
}

// Of the rules that lead to further nonterminals with empty trees the one with the least.
fn find_least(grammar: &Grammar, empties: &[u16], sizes: &[u64]) -> Option<Found>
    requires empties { length empties.now ≡ grammar.now.nonterminals + 1 }
    requires sizes { length sizes.now ≡ grammar.now.nonterminals + 1 }
    ensures none { IfNone result (IsSaturated grammar.now empties.now) }
    ensures some { IfSome result (λ found. IsFurther grammar.now empties.now found.rule) }
{
    let mut least = None;
    for (place, rule) in grammar.rules().iter().enumerate() {
        if empties[rule.left() as usize] == 0 && have_empty(empties, rule.right()) {
            let found = Found {
                rule: number_of(place),
                size: size_of(sizes, rule.right()),
            };
            least = lesser(least, found);
        }
    }
    least
}

// No rule for each of so many nonterminals.
fn no_rules(alloc: Global, many: usize) -> Result<Vec<u16>, AllocError>
    ensures size { IfOk result (λ rules. length rules.items ≡ many) }
    ensures none { IfOk result (λ rules. (a r : ℕ) → slice_get rules.items a ≡ Some r → r ≡ 0) }
{
    let mut rules = Vec::with_capacity(alloc, many)?;
    for _ in 0..many {
        rules.push(0u16)?;
    }
    Ok(rules)
}

// What is known of nonterminals that have empty trees.
#[derive(Debug, Drop)]
pub(crate) struct Empties {
    // By nonterminal: the rule of a least empty tree, or 0 where it has no empty tree.
    pub(crate) rules: Vec<u16>,
    // By nonterminal: the round in which that was found, later than those of the rule's symbols.
    pub(crate) rounds: Vec<u16>,
}

// The nonterminals that have empty trees. Each round takes the least of what can be made of those that are known (Knuth 1977,
// "A generalization of Dijkstra's algorithm").
pub(crate) fn empties_of(alloc: Global, grammar: &Grammar) -> Result<Empties, AllocError>
    ensures empties { IfOk result (λ empties. AreEmpties grammar.now empties.rules.items) }
    ensures rounds { IfOk result (HasRounds grammar.now) }
{
    let _well_formed = grammar.rules();
    let many = grammar.nonterminals() as usize + 1;
    let mut rules = no_rules(alloc, many)?;
    let mut rounds = no_rules(alloc, many)?;
    let mut sizes = vec![in alloc; 0u64; many]?;
    let mut round = 0u16;
    while let Some(found) = find_least(grammar, &rules, &sizes) {
        let left = grammar.rule(found.rule).left() as usize;
        rules[left] = found.rule;
        rounds[left] = round;
        sizes[left] = found.size;
        round += 1;
    }
    Ok(Empties { rules, rounds })
}
