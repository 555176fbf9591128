// The lists of chains of small grammars.

use cs_chain::{Chain, Chains, fits_chain, total};
use cs_grammar::Symbol::{Nonterminal, Token};
use cs_grammar::{Grammar, Rule, Symbol};
use cs_samples::{Lines, SampleError, grammar_of, grammar_of_sums, rules};
use std::alloc::{AllocError, Global};
use std::process::Abort;
use std::test::Fail;

const fn chain(outer: u16, place: u16, middle: u16, spot: u16, inner: u16) -> Chain {
    Chain {
        outer,
        place,
        middle,
        spot,
        inner,
    }
}

// Whether these are the grammar's chains, in this order, and no others.
fn are_all(grammar: &Grammar, wants: &[[u16; 5]]) -> bool {
    let mut chains = Chains::new(grammar);
    for [outer, place, middle, spot, inner] in wants {
        let want = chain(*outer, *place, *middle, *spot, *inner);
        if !fits_chain(grammar, &want) || chains.next() != Some(want) {
            return false;
        }
    }
    chains.next().is_none() && chains.next().is_none()
}

// e : e '+' t | t ;  t : NUM | '(' e ')' ;  with its chains listed by hand.
#[test]
fn chains_of_sums_in_order(rt: HostRuntime) -> Result<(), Fail> {
    let grammar = grammar_of_sums(rt.alloc())?;
    let wants = [
        [1, 1, 1, 1, 1],
        [1, 1, 1, 1, 2],
        [1, 1, 1, 3, 3],
        [1, 1, 1, 3, 4],
        [1, 1, 2, 1, 3],
        [1, 1, 2, 1, 4],
        [1, 3, 4, 2, 1],
        [1, 3, 4, 2, 2],
        [2, 1, 4, 2, 1],
        [2, 1, 4, 2, 2],
        [4, 2, 1, 1, 1],
        [4, 2, 1, 1, 2],
        [4, 2, 1, 3, 3],
        [4, 2, 1, 3, 4],
        [4, 2, 2, 1, 3],
        [4, 2, 2, 1, 4],
    ];
    assert!(rt; are_all(&grammar, &wants));
    assert_eq!(rt; total(rt.alloc(), &grammar)?, 16);
    Ok(())
}

// Rules with the start symbol 1, and their chains.
struct Row {
    lines: Lines,
    wants: &'static [[u16; 5]],
}

const S: Symbol = Nonterminal(1);

const A: Symbol = Nonterminal(2);

const X: Symbol = Token(1);

// Listed by hand.
const ROWS: &[Row] = &[
    // s : ;
    Row {
        lines: &[(1, &[])],
        wants: &[],
    },
    // s : a ;  a : 'x' ;  has a context goal and no chain.
    Row {
        lines: &[(1, &[A]), (2, &[X])],
        wants: &[],
    },
    // s : s | 'x' ;
    Row {
        lines: &[(1, &[S]), (1, &[X])],
        wants: &[[1, 1, 1, 1, 1], [1, 1, 1, 1, 2]],
    },
    // s : 'x' ;  a : a 'x' a ;  where no sentence uses the second rule.
    Row {
        lines: &[(1, &[X]), (2, &[A, X, A])],
        wants: &[
            [2, 1, 2, 1, 2],
            [2, 1, 2, 3, 2],
            [2, 3, 2, 1, 2],
            [2, 3, 2, 3, 2],
        ],
    },
    // a : 'x' ;  s : 'x' a ;  s : s ;  where the rules of a nonterminal stand apart.
    Row {
        lines: &[(2, &[X]), (1, &[X, A]), (1, &[S])],
        wants: &[[3, 1, 2, 2, 1], [3, 1, 3, 1, 2], [3, 1, 3, 1, 3]],
    },
];

fn check(rt: &impl Abort, alloc: Global, row: &Row) -> Result<(), SampleError> {
    let grammar = grammar_of(1, 2, rules(alloc, row.lines)?)?;
    assert!(rt; are_all(&grammar, row.wants));
    assert_eq!(rt; total(alloc, &grammar)?, row.wants.len() as u64);
    Ok(())
}

#[test]
fn chains_of_small_grammars(rt: HostRuntime) -> Result<(), Fail> {
    for row in ROWS {
        check(&rt, rt.alloc(), row)?;
    }
    Ok(())
}

// s : s ;  so many times: each rule stands under each under each.
fn own(alloc: Global, count: u16) -> Result<Vec<Rule>, AllocError> {
    let mut rules = Vec::new(alloc);
    for _ in 0..count {
        rules.push(Rule::new(1, [S].to_vec(alloc)?))?;
    }
    Ok(rules)
}

// The cube of the number of rules.
#[test]
fn a_million_chains_are_counted(rt: HostRuntime) -> Result<(), Fail> {
    let alloc = rt.alloc();
    assert_eq!(rt;
        total(alloc, &grammar_of(0, 1, own(alloc, 100)?)?)?,
        1_000_000
    );
    assert_eq!(rt;
        total(alloc, &grammar_of(0, 1, own(alloc, 8192)?)?)?,
        549_755_813_888
    );
    Ok(())
}
