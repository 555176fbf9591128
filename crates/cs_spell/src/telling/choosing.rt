// Which rule of the grammar a spelling is shown in.

ghost use Rattle.std.specs.Prelude.{◌≡◌, ◌+◌, ◌<◌, ◌↔◌, Contains, IsTrue, length, true};
ghost use Rattle.cs_grammar.specs.declared.symbol.Symbol.TheVariants as symbols;
ghost use Rattle.cs_manifest.specs.Manifest.Lines as lines;
ghost use Rattle.cs_spell.specs.Telling.Chosen.{HasLarge, IsBetter, IsWanted, size_in};
ghost use Rattle.cs_spell.specs.Telling.Choosing.{IsBestBelow, IsCandidateAt, IsChoice, IsLargeAt};

use crate::telling::judged::Judged;
use cs_grammar::{Grammar, Rule, Symbol};
use cs_verdicts::Verdict;

// Whether both hold.
pub(crate) fn both(one: bool, other: bool) -> bool
    ensures { IsTrue result ↔ (IsTrue one × IsTrue other) }
{
    one && other
}

// Whether the symbol is the token.
fn is_token(symbol: Symbol, token: u16) -> bool
    ensures { IsTrue result ↔ (symbol ≡ symbols.Token token) }
{
    match symbol {
        Symbol::Token(other) => other == token,
        Symbol::Nonterminal(_) => false,
    }
}

// Whether the token stands in the right side.
fn has_token(right: &[Symbol], token: u16) -> bool
    ensures { IsTrue result ↔ Contains right.now (symbols.Token token) }
{
    for i in 0..right.len() {
        if is_token(right[i], token) {
            return true;
        }
    }
    false
}

// Whether the rule is wanted.
fn is_wanted(rule: &Rule, wanted: Option<u16>) -> bool
    ensures { IsTrue result ↔ IsWanted wanted rule.now }
{
    match wanted {
        Some(token) => has_token(rule.right(), token),
        None => true,
    }
}

fn is_feasible(verdict: &Verdict) -> bool
    ensures { result ≡ lines.is_feasible verdict.now }
{
    match verdict {
        Verdict::Feasible { .. } => true,
        Verdict::Infeasible | Verdict::Large => false,
    }
}

fn is_large(verdict: &Verdict) -> bool
    ensures { result ≡ lines.is_large verdict.now }
{
    match verdict {
        Verdict::Large => true,
        Verdict::Infeasible | Verdict::Feasible { .. } => false,
    }
}

// The size of the least tree, where there is one within the limit.
fn size_of(verdict: &Verdict) -> u32
    ensures { result ≡ size_in verdict.now }
{
    match verdict {
        Verdict::Feasible { size, .. } => *size,
        Verdict::Infeasible | Verdict::Large => 0,
    }
}

// Whether the rule at the place is wanted and its goal feasible.
fn is_candidate(grammar: &Grammar, judged: &[Judged], wanted: Option<u16>, place: usize) -> bool
    requires all { length judged.now ≡ length grammar.now.rules }
    requires place { place < length judged.now }
    ensures { IsTrue result ↔ IsCandidateAt grammar.now judged.now wanted place }
{
    let wanted = is_wanted(&grammar.rules()[place], wanted);
    let feasible = is_feasible(judged[place].verdict());
    both(wanted, feasible)
}

// Whether the rule at the place is wanted and its goal large.
fn is_large_at(grammar: &Grammar, judged: &[Judged], wanted: Option<u16>, place: usize) -> bool
    requires all { length judged.now ≡ length grammar.now.rules }
    requires place { place < length judged.now }
    ensures { IsTrue result ↔ IsLargeAt grammar.now judged.now wanted place }
{
    let wanted = is_wanted(&grammar.rules()[place], wanted);
    let large = is_large(judged[place].verdict());
    both(wanted, large)
}

// Whether the one verdict is better than the other.
fn is_better(wanted: Option<u16>, judged: &Judged, other: &Judged) -> bool
    ensures { IsTrue result ↔ IsBetter wanted judged.now other.now }
{
    match wanted {
        Some(_) => size_of(judged.verdict()) < size_of(other.verdict()),
        None => other.tokens().len() < judged.tokens().len(),
    }
}

// The better of the best so far and the rule at the place.
fn better_of(
    grammar: &Grammar,
    judged: &[Judged],
    wanted: Option<u16>,
    best: Option<usize>,
    place: usize,
) -> Option<usize>
    requires all { length judged.now ≡ length grammar.now.rules }
    requires place { place < length judged.now }
    requires best { IsBestBelow grammar.now judged.now wanted place best }
    ensures { IsBestBelow grammar.now judged.now wanted (place + 1) result }
{
    if !is_candidate(grammar, judged, wanted, place) {
        return best;
    }
    let Some(known) = best else {
        return Some(place);
    };
    if is_better(wanted, &judged[place], &judged[known]) {
        Some(place)
    } else {
        Some(known)
    }
}

/// The place of the rule that is chosen. None where no wanted rule's goal is feasible.
pub(crate) fn choose(grammar: &Grammar, judged: &[Judged], wanted: Option<u16>) -> Option<usize>
    requires { length judged.now ≡ length grammar.now.rules }
    ensures { IsChoice grammar.now judged.now wanted result }
{
    let mut best = None;
    for place in 0..judged.len() {
        best = better_of(grammar, judged, wanted, best, place);
    }
    best
}

/// Whether the goal of some wanted rule is large.
pub(crate) fn has_large(grammar: &Grammar, judged: &[Judged], wanted: Option<u16>) -> bool
    requires { length judged.now ≡ length grammar.now.rules }
    ensures { IsTrue result ↔ HasLarge grammar.now judged.now wanted }
{
    for place in 0..judged.len() {
        if is_large_at(grammar, judged, wanted, place) {
            return true;
        }
    }
    false
}
