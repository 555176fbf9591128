ghost use Rattle.std.specs.Prelude.{◌≡◌, length};

use crate::pairs::prepared::Want::{Code, Nowhere, TooLarge};
use crate::pairs::prepared::{A, FIRST, FOURTH, SECOND, THIRD, Want, X, Y, Z, is_wanted};
use cs_goals::{Goal, fits_goal};
use cs_grammar::Symbol::{Nonterminal, Token};
use cs_grammar::{Grammar, Mark, Symbol, Weights};
use cs_least::Cost;
use cs_samples::{Lines, SampleError, grammar_of, rules};
use cs_verdicts::{Tables, judge};
use std::alloc::{AllocError, Global};
use std::process::Abort;
use std::test::Fail;

// So many tokens, rules over them, and what is to be told of pairs.
#[derive(Clone, Copy)]
struct Row {
    tokens: u16,
    lines: Lines,
    wants: &'static [(Mark, Mark, Want)],
}

const BEGIN: Mark = Mark::Begin;

const END: Mark = Mark::End;

const E: Symbol = Nonterminal(1);

const T: Symbol = Nonterminal(2);

const U: Symbol = Nonterminal(3);

const B: Symbol = Nonterminal(3);

const C: Symbol = Nonterminal(4);

fn is_cost(cost: Cost, want: Want) -> bool {
    match (cost, want) {
        (Cost::Least(size), Code(least, _)) => size == least,
        (Cost::Never, Nowhere) | (Cost::Large, TooLarge) => true,
        _ => false,
    }
}

// What is told of a pair is what is wanted.
fn check_pair(
    rt: &impl Abort,
    alloc: Global,
    tables: &Tables,
    (left, right, want): (Mark, Mark, Want),
) -> Result<(), AllocError> {
    let goal = Goal::Pair { left, right };
    assert!(rt; fits_goal(tables.grammar(), &goal));
    let pairs = tables.pairs();
    let is_adjacent = pairs.adjacent(left, right) != matches!(want, Nowhere);
    assert!(rt;
        is_adjacent && is_cost(pairs.cost(left, right), want),
        "{goal:?}"
    );
    assert!(rt; is_wanted(&judge(alloc, tables, &goal)?, want), "{goal:?}");
    Ok(())
}

fn check_pairs(
    rt: &impl Abort,
    alloc: Global,
    tables: &Tables,
    wants: &[(Mark, Mark, Want)],
) -> Result<(), AllocError> {
    for want in wants {
        check_pair(rt, alloc, tables, *want)?;
    }
    Ok(())
}

fn check_by(
    rt: &impl Abort,
    alloc: Global,
    grammar: &Grammar,
    weights: &Weights,
    wants: &[(Mark, Mark, Want)],
) -> Result<(), AllocError>
    requires { length weights.now.numbers ≡ grammar.now.tokens }
{
    let tables = Tables::new(alloc, grammar, weights)?;
    check_pairs(rt, alloc, &tables, wants)
}

// So of each pair of a row, where nodes are counted.
fn check(rt: &impl Abort, alloc: Global, row: Row) -> Result<(), SampleError> {
    let grammar = grammar_of(row.tokens, 13, rules(alloc, row.lines)?)?;
    let weights = Weights::nodes(alloc, row.tokens)?;
    Ok(check_by(rt, alloc, &grammar, &weights, row.wants)?)
}

// Worked by hand from the sums of an arithmetic grammar: its 12 pairs of neighbours, and the least trees of four of them.
const SUMS: Row = Row {
    tokens: 5,
    // e : e '+' t | t ;  t : NUM | '(' e ')' ;  u : u 'x' ;
    lines: &[
        (1, &[E, Token(2), T]),
        (1, &[T]),
        (2, &[Token(1)]),
        (2, &[Token(3), E, Token(4)]),
        (3, &[U, Token(5)]),
    ],
    wants: &[
        (FOURTH, FOURTH, Code(11, &[2, 4, 2, 4, 2, 3])),
        (SECOND, THIRD, Code(11, &[1, 2, 3, 4, 2, 3])),
        (BEGIN, THIRD, Code(7, &[2, 4, 2, 3])),
        (FOURTH, END, Code(7, &[2, 4, 2, 3])),
        (FIRST, FIRST, Nowhere),
        (BEGIN, END, Nowhere),
        (Mark::Token(5), Mark::Token(5), Nowhere),
    ],
};

#[test]
fn pairs_of_sums(rt: HostRuntime) -> Result<(), Fail> {
    check(&rt, rt.alloc(), SUMS)?;
    Ok(())
}

// By hand: what stands between two neighbours may be empty, and so may a whole sentence.
const OVER_EMPTY: &[Row] = &[
    // s : a b c ;  a : 'x' ;  b : | 'y' ;  c : 'z' ;
    Row {
        tokens: 3,
        lines: &[(1, &[A, B, C]), (2, &[X]), (3, &[]), (3, &[Y]), (4, &[Z])],
        wants: &[
            (FIRST, SECOND, Code(7, &[1, 2, 4, 5])),
            (FIRST, THIRD, Code(6, &[1, 2, 3, 5])),
            (THIRD, FIRST, Nowhere),
        ],
    },
    // s : a ;  a : | 'x' ;
    Row {
        tokens: 1,
        lines: &[(1, &[A]), (2, &[]), (2, &[X])],
        wants: &[
            (BEGIN, END, Code(2, &[1, 2])),
            (BEGIN, FIRST, Code(3, &[1, 3])),
            (FIRST, END, Code(3, &[1, 3])),
            (FIRST, FIRST, Nowhere),
        ],
    },
    // s : a 'x' ;  a : b ;  b : a | ;
    Row {
        tokens: 1,
        lines: &[(1, &[A, X]), (2, &[B]), (3, &[A]), (3, &[])],
        wants: &[(BEGIN, FIRST, Code(4, &[1, 2, 4]))],
    },
    // s : 'x' | a u ;  a : 'y' ;  u : u ;
    Row {
        tokens: 2,
        lines: &[(1, &[X]), (1, &[A, B]), (2, &[Y]), (3, &[B])],
        wants: &[(BEGIN, SECOND, Nowhere), (SECOND, END, Nowhere)],
    },
];

#[test]
fn pairs_over_empty_trees(rt: HostRuntime) -> Result<(), Fail> {
    for row in OVER_EMPTY {
        check(&rt, rt.alloc(), *row)?;
    }
    Ok(())
}

// By hand, from the rule on ties: the lowest rule where the two meet, then the lowest place of the first, then of the second.
const TIES: &[Row] = &[
    // s : a a 'y' ;  a : 'x' | ;
    Row {
        tokens: 2,
        lines: &[(1, &[A, A, Y]), (2, &[X]), (2, &[])],
        wants: &[(FIRST, SECOND, Code(5, &[1, 2, 3]))],
    },
    // s : a a ;  a : | 'x' ;
    Row {
        tokens: 1,
        lines: &[(1, &[A, A]), (2, &[]), (2, &[X])],
        wants: &[(BEGIN, FIRST, Code(4, &[1, 3, 2]))],
    },
    // s : q 'y' | p 'y' ;  p : 'x' ;  q : 'x' ;  where p is 2.
    Row {
        tokens: 2,
        lines: &[(1, &[B, Y]), (1, &[A, Y]), (2, &[X]), (3, &[X])],
        wants: &[(FIRST, SECOND, Code(4, &[1, 4]))],
    },
    // s : a a a ;  a : 'x' | 'y' ;
    Row {
        tokens: 2,
        lines: &[(1, &[A, A, A]), (2, &[X]), (2, &[Y])],
        wants: &[(SECOND, SECOND, Code(7, &[1, 3, 3, 2]))],
    },
    // s : a b c ;  a : 'x' ;  b : | 'y' ;  c : | 'y' ;
    Row {
        tokens: 2,
        lines: &[
            (1, &[A, B, C]),
            (2, &[X]),
            (3, &[]),
            (3, &[Y]),
            (4, &[]),
            (4, &[Y]),
        ],
        wants: &[(FIRST, SECOND, Code(6, &[1, 2, 4, 5]))],
    },
    // s : b | a ;  a : 'x' 'x' ;  b : 'x' 'x' ;  where a is 2.
    Row {
        tokens: 1,
        lines: &[(1, &[B]), (1, &[A]), (2, &[X, X]), (3, &[X, X])],
        wants: &[
            (FIRST, FIRST, Code(4, &[2, 3])),
            (BEGIN, FIRST, Code(4, &[1, 4])),
        ],
    },
];

#[test]
fn ties_of_pairs(rt: HostRuntime) -> Result<(), Fail> {
    for row in TIES {
        check(&rt, rt.alloc(), *row)?;
    }
    Ok(())
}

// 2 to the 12th leaves and as many nodes: a pair that only large trees show is adjacent all the same.
const DOUBLING: Row = Row {
    tokens: 2,
    // x12 : x11 x11 ;  down to  x1 : x0 x0 ;  x0 : 'x' ;  where xk is nonterminal 13 - k.
    lines: &[
        (1, &[Nonterminal(2); 2]),
        (2, &[Nonterminal(3); 2]),
        (3, &[Nonterminal(4); 2]),
        (4, &[Nonterminal(5); 2]),
        (5, &[Nonterminal(6); 2]),
        (6, &[Nonterminal(7); 2]),
        (7, &[Nonterminal(8); 2]),
        (8, &[Nonterminal(9); 2]),
        (9, &[Nonterminal(10); 2]),
        (10, &[Nonterminal(11); 2]),
        (11, &[Nonterminal(12); 2]),
        (12, &[Nonterminal(13); 2]),
        (13, &[X]),
    ],
    wants: &[
        (FIRST, FIRST, TooLarge),
        (FIRST, SECOND, Nowhere),
        (BEGIN, FIRST, TooLarge),
    ],
};

#[test]
fn pairs_above_the_limit(rt: HostRuntime) -> Result<(), Fail> {
    check(&rt, rt.alloc(), DOUBLING)?;
    Ok(())
}
