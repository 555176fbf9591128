use crate::trees::prepared::chain;
use cs_grammar::Symbol::Nonterminal;
use cs_grammar::{Derivation, Symbol, Weights};
use cs_least::Cost::{Large, Least, Never};
use cs_least::{Cost, Costs, cost_of, is_below, plus};
use cs_samples::{Lines, SampleError, grammar_of, rules, weights_of};
use std::alloc::{AllocError, Global};
use std::process::Abort;
use std::test::Fail;

// Rules, the numbers of tokens, a limit, what the least tree of nonterminal 1 costs, and the code of the chosen one.
type Row = (Lines, &'static [u32], u32, Cost, &'static [u16]);

// What the least tree of nonterminal 1 costs is this, and where it is a size the chosen tree has this code.
fn compare(
    rt: &impl Abort,
    alloc: Global,
    costs: &Costs,
    want: Cost,
    code: &[u16],
) -> Result<(), AllocError> {
    let first = Nonterminal(1);
    assert!(rt; 0 < costs.grammar().nonterminals());
    let mut into = Derivation::new(alloc);
    let cost = costs.cost(first);
    if let Least(_) = cost {
        costs.least_into(first, &mut into)?;
    }
    assert!(rt; cost == want && into.rules() == code, "{cost:?}");
    Ok(())
}

fn check(rt: &impl Abort, alloc: Global, row: Row) -> Result<(), SampleError> {
    let (lines, numbers, limit, want, code) = row;
    assert!(rt; numbers.len() <= 512);
    let grammar = grammar_of(numbers.len() as u16, 1024, rules(alloc, lines)?)?;
    let weights = weights_of(alloc, numbers, limit)?;
    let costs = Costs::new(alloc, &grammar, &weights)?;
    Ok(compare(rt, alloc, &costs, want, code)?)
}

const START: Symbol = Symbol::Nonterminal(1);

const INNER: Symbol = Symbol::Nonterminal(2);

const OTHER: Symbol = Symbol::Nonterminal(3);

const FIRST: Symbol = Symbol::Token(1);

const SECOND: Symbol = Symbol::Token(2);

const THIRD: Symbol = Symbol::Token(3);

const FOURTH: Symbol = Symbol::Token(4);

// s : b | A ;  b : 'x' ;  with A 1 and 'x' 2.
const EVEN: Lines = &[(1, &[INNER]), (1, &[FIRST]), (2, &[SECOND])];

// s : A | b ;  b : 'x' ;
const EXCHANGED: Lines = &[(1, &[FIRST]), (1, &[INNER]), (2, &[SECOND])];

// s : a t ;  a : LONG | 'x' 'y' ;  t : 'z' ;
const TEXTS: Lines = &[
    (1, &[INNER, OTHER]),
    (2, &[FIRST]),
    (2, &[SECOND, THIRD]),
    (3, &[FOURTH]),
];

// s : a a | 'x' 'x' ;  a : LONG ;
const LARGE: Lines = &[(1, &[INNER, INNER]), (1, &[SECOND, SECOND]), (2, &[FIRST])];

// s : A ;
const ONE: Lines = &[(1, &[FIRST])];

// s : s ;
const NONE: Lines = &[(1, &[START])];

const MOST: u32 = 1_000_000;

// Sizes reckoned by hand: a leaf is its token's number, a node 1 and its children; of equals the lowest rule is taken.
const ROWS: [Row; 8] = [
    (EVEN, &[2, 1], 100, Least(3), &[1, 3]),
    (EXCHANGED, &[2, 1], 100, Least(3), &[1]),
    (TEXTS, &[129, 17, 17, 17], 100_000, Least(54), &[1, 3, 4]),
    (TEXTS, &[1; 4], 100_000, Least(5), &[1, 2, 4]),
    (LARGE, &[60, 49], 100, Least(99), &[2]),
    (ONE, &[MOST], MOST, Large, &[]),
    (ONE, &[999_999], MOST, Least(MOST), &[1]),
    (NONE, &[1], 100, Never, &[]),
];

#[test]
fn least_trees_by_weights(rt: HostRuntime) -> Result<(), Fail> {
    for row in ROWS {
        check(&rt, rt.alloc(), row)?;
    }
    Ok(())
}

fn check_chain(rt: &impl Abort, alloc: Global, backwards: bool) -> Result<(), SampleError> {
    let grammar = grammar_of(1, 1024, chain(alloc, backwards)?)?;
    let weights = Weights::nodes(alloc, 1)?;
    let costs = Costs::new(alloc, &grammar, &weights)?;
    assert!(rt; costs.cost(Nonterminal(1)) == Least(1025));
    assert!(rt; costs.cost(Nonterminal(1024)) == Least(2));
    Ok(())
}

// n1 : n2 ;  down to  n1024 : 'x' ;  has 1,024 nodes and a leaf, in either order of the rules.
#[test]
fn chain_of_nonterminals(rt: HostRuntime) -> Result<(), Fail> {
    check_chain(&rt, rt.alloc(), false)?;
    check_chain(&rt, rt.alloc(), true)?;
    Ok(())
}

// By the order: sizes, then large ones, then none; and sums stop at the limit.
#[test]
fn costs_are_ordered(rt: HostRuntime) -> Result<(), Fail> {
    assert!(rt; is_below(Least(3), Least(4)));
    assert!(rt; is_below(Least(10_000), Large));
    assert!(rt; is_below(Large, Never));
    assert!(rt; !is_below(Large, Large));
    assert!(rt; cost_of(10_001, 10_000) == Large);
    assert!(rt; plus(Least(9_999), Least(1), 10_000) == Least(10_000));
    assert!(rt; plus(Least(9_999), Least(2), 10_000) == Large);
    assert!(rt; plus(Large, Never, 10_000) == Never);
    Ok(())
}
