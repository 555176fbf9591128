// Kinds of trees by what they yield: sizes, codes and steps that were worked by hand, where nodes are counted.

ghost use Rattle.std.specs.Prelude.{◌≡◌, IfOk, IsTrue, length};
ghost use Rattle.cs_grammar.specs.Weights.{weighed};
ghost use Rattle.cs_grammar.specs.Grammar.{IsSymbolOf};
ghost use Rattle.cs_pairs.specs.Kinds.Kinds.{IsKind};

use crate::trees::prepared::embeds_of;
use cs_grammar::Symbol::{Nonterminal, Token};
use cs_grammar::{Derivation, Grammar, Symbol, Weights};
use cs_least::Cost::{Large, Least, Never};
use cs_least::{Cost, Reach, Step, told_cost};
use cs_pairs::TreeKind::{Any, Begins, Empty, Ends};
use cs_pairs::{
    Kinds, Row, Sweep, TreeKind, chosen_of_kind_exists, kind_into, one_chosen_of_kind, step_cost,
    symbol_number,
};
use cs_samples::{SampleError, grammar_of, grammar_of_sums, rules, weights_of};
use std::alloc::{AllocError, Global};
use std::process::Abort;
use std::test::Fail;

// What the least tree of a kind and a symbol costs.
type Told = (TreeKind, Symbol, Cost);

// What trees of two symbols cost that are of a kind together, and the codes of the chosen ones, where they have a size.
type Both = (TreeKind, [Symbol; 2], Cost, &'static [u16]);

fn is_kind(tokens: u16, kind: TreeKind) -> bool
    ensures { IsTrue result → IsKind tokens kind }
{
    match kind {
        Any | Empty => true,
        Begins(token) | Ends(token) => 0 < token && token <= tokens,
    }
}

fn is_symbol(grammar: &Grammar, symbol: Symbol) -> bool
    ensures { IsTrue result → IsSymbolOf grammar.now symbol }
{
    match symbol {
        Token(number) => 0 < number && number <= grammar.tokens(),
        Nonterminal(number) => 0 < number && number <= grammar.nonterminals(),
    }
}

fn kinds_of<'g>(
    alloc: Global,
    grammar: &'g Grammar,
    weights: &'g Weights,
) -> Result<Kinds<'g>, AllocError>
    requires { length weights.now.numbers ≡ grammar.now.tokens }
    ensures { IfOk result (λ kinds. kinds ≡ weighed grammar.now weights.now) }
{
    Kinds::new(alloc, embeds_of(alloc, grammar, weights)?)
}

fn check_told(rt: &impl Abort, kinds: &Kinds, told: &[Told]) {
    for (kind, symbol, want) in told {
        assert!(rt; is_kind(kinds.grammar().tokens(), *kind));
        assert!(rt; is_symbol(kinds.grammar(), *symbol));
        assert!(rt; kinds.told(*kind, *symbol) == *want, "{kind:?} {symbol:?}");
    }
}

fn check_both(
    rt: &impl Abort,
    alloc: Global,
    kinds: &Kinds,
    both: &Both,
) -> Result<(), AllocError> {
    let (kind, [first, second], want, code) = *both;
    assert!(rt; is_kind(kinds.grammar().tokens(), kind));
    assert!(rt; is_symbol(kinds.grammar(), first));
    assert!(rt; is_symbol(kinds.grammar(), second));
    let sweep = Sweep::new(kind).over(kinds, second).over(kinds, first);
    assert!(rt; sweep.whole == want);
    let mut into = Derivation::new(alloc);
    if let Least(_) = sweep.whole {
        kind_into(alloc, kinds, kind, &[first, second], &mut into)?;
    }
    assert!(rt; into.rules() == code);
    Ok(())
}

fn check_all_both(
    rt: &impl Abort,
    alloc: Global,
    kinds: &Kinds,
    both: &[Both],
) -> Result<(), AllocError> {
    for row in both {
        check_both(rt, alloc, kinds, row)?;
    }
    Ok(())
}

fn check(
    rt: &impl Abort,
    alloc: Global,
    grammar: &Grammar,
    limit: u32,
    told: &[Told],
    both: &[Both],
) -> Result<(), SampleError>
    requires { grammar.now.tokens ≡ 4 }
{
    let weights = weights_of(alloc, &[1, 1, 1, 1], limit)?;
    let kinds = kinds_of(alloc, grammar, &weights)?;
    check_told(rt, &kinds, told);
    Ok(check_all_both(rt, alloc, &kinds, both)?)
}

// e : e '+' t | t ;  t : NUM | '(' e ')' ;  where NUM is 1, '+' 2, '(' 3 and ')' 4.
const E: Symbol = Nonterminal(1);

const T: Symbol = Nonterminal(2);

const NUM: Symbol = Token(1);

const SUMS_TOLD: [Told; 13] = [
    (Any, E, Least(3)),
    (Empty, E, Never),
    (Begins(1), E, Least(3)),
    (Begins(2), E, Never),
    (Begins(3), E, Least(7)),
    (Begins(3), T, Least(6)),
    (Ends(1), T, Least(2)),
    (Ends(4), E, Least(7)),
    (Ends(3), E, Never),
    (Any, NUM, Least(1)),
    (Empty, NUM, Never),
    (Begins(1), NUM, Least(1)),
    (Ends(2), NUM, Never),
];

const SUMS_BOTH: [Both; 4] = [
    (Any, [Token(2), T], Least(3), &[3]),
    (Begins(3), [E, T], Least(9), &[2, 4, 2, 3, 3]),
    (Ends(4), [E, T], Least(9), &[2, 3, 4, 2, 3]),
    (Begins(4), [T, E], Never, &[]),
];

#[test]
fn kinds_of_sums(rt: HostRuntime) -> Result<(), Fail> {
    let grammar = grammar_of_sums(rt.alloc())?;
    check(&rt, rt.alloc(), &grammar, 10_000, &SUMS_TOLD, &SUMS_BOTH)?;
    Ok(())
}

// s : a b ;  a : | 'x' ;  b : 'y' | ;  where 3 nodes are the limit.
const S: Symbol = Nonterminal(1);

const A: Symbol = Nonterminal(2);

const B: Symbol = Nonterminal(3);

const LINES: [(u16, &[Symbol]); 5] = [
    (1, &[A, B]),
    (2, &[]),
    (2, &[Token(1)]),
    (3, &[Token(2)]),
    (3, &[]),
];

const EMPTY_TOLD: [Told; 8] = [
    (Any, S, Least(3)),
    (Empty, S, Least(3)),
    (Begins(1), S, Large),
    (Begins(2), S, Large),
    (Ends(1), S, Large),
    (Begins(1), A, Least(2)),
    (Begins(1), B, Never),
    (Empty, B, Least(1)),
];

const EMPTY_BOTH: [Both; 6] = [
    (Empty, [A, B], Least(2), &[2, 5]),
    (Begins(1), [A, B], Least(3), &[3, 5]),
    (Begins(2), [A, B], Least(3), &[2, 4]),
    (Ends(1), [A, B], Least(3), &[3, 5]),
    (Ends(2), [A, B], Least(3), &[2, 4]),
    (Any, [S, A], Large, &[]),
];

#[test]
fn kinds_over_empty_trees(rt: HostRuntime) -> Result<(), Fail> {
    let grammar = grammar_of(4, 3, rules(rt.alloc(), &LINES)?)?;
    check(&rt, rt.alloc(), &grammar, 3, &EMPTY_TOLD, &EMPTY_BOTH)?;
    one_chosen_of_kind();
    chosen_of_kind_exists();
    Ok(())
}

// Sizes are added up to the limit.
fn check_sums_of_costs(rt: &impl Abort, kinds: &Kinds) {
    let costs = kinds.costs();
    assert!(rt; kinds.weights().limit() == 10_000 && costs.weights().limit() == 10_000);
    assert!(rt; kinds.plus(Least(3), Least(4)) == Least(7));
    assert!(rt; kinds.plus(Least(6_000), Least(6_000)) == Large);
    assert!(rt; costs.plus(Least(6_000), Never) == Never);
    assert!(rt; costs.node() == Least(1));
}

const STEPS: [Step; 4] = [
    Step {
        from: 5,
        to: 6,
        cost: 5,
    },
    Step {
        from: 5,
        to: 6,
        cost: 1,
    },
    Step {
        from: 6,
        to: 1,
        cost: 1,
    },
    Step {
        from: 6,
        to: 4,
        cost: 5,
    },
];

fn check_steps(rt: &impl Abort, alloc: Global, kinds: &Kinds) -> Result<(), AllocError> {
    let steps = kinds.steps_to_ends(alloc)?;
    assert!(rt; steps.list() == STEPS.as_slice());
    Ok(())
}

fn check_sums_by(
    rt: &impl Abort,
    alloc: Global,
    grammar: &Grammar,
    weights: &Weights,
) -> Result<(), AllocError>
    requires { length weights.now.numbers ≡ grammar.now.tokens }
{
    let kinds = kinds_of(alloc, grammar, weights)?;
    check_sums_of_costs(rt, &kinds);
    check_steps(rt, alloc, &kinds)
}

fn check_sums(rt: &impl Abort, alloc: Global) -> Result<(), SampleError> {
    let grammar = grammar_of_sums(alloc)?;
    let weights = Weights::nodes(alloc, 4)?;
    Ok(check_sums_by(rt, alloc, &grammar, &weights)?)
}

// Each leads from a left side to the last symbol of a right side, and costs the node and the least trees beside it.
#[test]
fn steps_to_the_last_tokens_of_sums(rt: HostRuntime) -> Result<(), Fail> {
    check_sums(&rt, rt.alloc())?;
    Ok(())
}

#[test]
fn costs_and_numbers(rt: HostRuntime) -> Result<(), Fail> {
    let weights = Weights::nodes(rt.alloc(), 2)?;
    assert!(rt; step_cost(&weights, Least(7)) == Some(7));
    assert!(rt; step_cost(&weights, Large) == Some(10_001));
    assert!(rt; step_cost(&weights, Never).is_none());
    assert!(rt; told_cost(Reach::Least { cost: 5, origin: 1 }) == Least(5));
    assert!(rt; told_cost(Reach::Large) == Large);
    assert!(rt; told_cost(Reach::Never) == Never);
    assert!(rt; symbol_number(4, Token(3)) == 3);
    assert!(rt; symbol_number(4, Nonterminal(2)) == 6);
    Ok(())
}

#[test]
fn rows_keep_their_costs(rt: HostRuntime) -> Result<(), Fail> {
    let row = Row::new([Never, Least(2)].to_vec(rt.alloc())?);
    assert!(rt; row.costs() == [Never, Least(2)].as_slice());
    Ok(())
}
