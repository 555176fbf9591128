ghost use Rattle.std.specs.Prelude.{◌≡◌, length};
ghost use Rattle.cs_grammar.specs.Grammar.{IsNumberOf};

use crate::pairs::prepared::{X, Y};
use crate::trees::prepared::pairs_of;
use cs_grammar::Symbol::Nonterminal;
use cs_grammar::{Grammar, Symbol, Weights, number_of};
use cs_pairs::Pairs;
use cs_samples::{Lines, SampleError, grammar_of, grammar_of_sums, rules, weights_of};
use std::alloc::{AllocError, Global};
use std::process::Abort;
use std::test::Fail;

// What a nonterminal can yield: nothing, tokens of which these are the first, tokens of which these are the last.
#[derive(Clone, Copy)]
struct Want {
    empty: bool,
    first: &'static [u16],
    last: &'static [u16],
}

const NOTHING: Want = Want {
    empty: false,
    first: &[],
    last: &[],
};

const OWN: Want = Want {
    empty: false,
    first: &[1],
    last: &[1],
};

const MAYBE: Want = Want {
    empty: true,
    first: &[2],
    last: &[2],
};

const BEGINS: Want = Want {
    empty: false,
    first: &[1, 2],
    last: &[1],
};

// Whether a nonterminal can begin and end with the wanted tokens, and with no others.
fn has_ends(pairs: &Pairs, nonterminal: u16, want: Want) -> bool
    requires { IsNumberOf pairs.now.grammar.nonterminals nonterminal }
{
    for place in 0..pairs.grammar().tokens() {
        let token = place + 1;
        let first = pairs.first(nonterminal, token);
        let last = pairs.last(nonterminal, token);
        if first != want.first.contains(&token) || last != want.last.contains(&token) {
            return false;
        }
    }
    true
}

// The closed sets have what is wanted of a nonterminal, and nothing else.
fn compare(rt: &impl Abort, pairs: &Pairs, nonterminal: u16, want: Want) {
    assert!(rt; 0 < nonterminal && nonterminal <= pairs.grammar().nonterminals());
    assert!(rt; pairs.empty(nonterminal) == want.empty);
    assert!(rt; has_ends(pairs, nonterminal, want));
}

fn compare_all(rt: &impl Abort, pairs: &Pairs, wants: &[Want]) {
    for (place, want) in wants.iter().enumerate() {
        assert!(rt; place < 2);
        compare(rt, pairs, number_of(place), *want);
    }
}

fn compare_by(
    rt: &impl Abort,
    alloc: Global,
    grammar: &Grammar,
    weights: &Weights,
    wants: &[Want],
) -> Result<(), AllocError>
    requires { length weights.now.numbers ≡ grammar.now.tokens }
{
    let pairs = pairs_of(alloc, grammar, weights)?;
    compare_all(rt, &pairs, wants);
    Ok(())
}

// So of all nonterminals, where each token weighs 1 and a tree above the limit is only known to exist.
fn check(
    rt: &impl Abort,
    alloc: Global,
    (lines, limit, wants): (Lines, u32, [Want; 2]),
) -> Result<(), SampleError> {
    let grammar = grammar_of(2, 2, rules(alloc, lines)?)?;
    let weights = weights_of(alloc, &[1, 1], limit)?;
    Ok(compare_by(rt, alloc, &grammar, &weights, &wants)?)
}

const S: Symbol = Nonterminal(1);

const U: Symbol = Nonterminal(2);

// The sets of empty, first and last symbols of these grammars, by hand.
const ROWS: [(Lines, u32, [Want; 2]); 5] = [
    // s : 'x' ;
    (&[(1, &[X])], 10_000, [OWN, NOTHING]),
    // s : s 'x' | u ;  u : u 'y' ;  of which neither has a tree.
    (
        &[(1, &[S, X]), (1, &[U]), (2, &[U, Y])],
        10_000,
        [NOTHING, NOTHING],
    ),
    // s : u 'x' ;  u : | u 'y' ;
    (
        &[(1, &[U, X]), (2, &[]), (2, &[U, Y])],
        10_000,
        [BEGINS, MAYBE],
    ),
    // s : 'x' ;  u : | 'y' ;  where no sentence uses u.
    (&[(1, &[X]), (2, &[]), (2, &[Y])], 10_000, [OWN, MAYBE]),
    // s : u u ;  u : | 'y' ;  where each tree of s is above a limit of 2.
    (&[(1, &[U, U]), (2, &[]), (2, &[Y])], 2, [MAYBE, MAYBE]),
];

#[test]
fn closed_sets(rt: HostRuntime) -> Result<(), Fail> {
    for row in ROWS {
        check(&rt, rt.alloc(), row)?;
    }
    Ok(())
}

// The same of the sums of an arithmetic grammar: e and t begin with NUM and '(', and end with NUM and ')'.
const OF_SUMS: Want = Want {
    empty: false,
    first: &[1, 3],
    last: &[1, 4],
};

fn check_sums(rt: &impl Abort, alloc: Global) -> Result<(), SampleError> {
    let grammar = grammar_of_sums(alloc)?;
    let weights = Weights::nodes(alloc, 4)?;
    let wants = [OF_SUMS, OF_SUMS];
    Ok(compare_by(rt, alloc, &grammar, &weights, &wants)?)
}

#[test]
fn closed_sets_of_sums(rt: HostRuntime) -> Result<(), Fail> {
    check_sums(&rt, rt.alloc())?;
    Ok(())
}
