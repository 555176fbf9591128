// The verdicts of chains of small grammars, and workers that share them.

ghost use Rattle.std.specs.Prelude.{◌≤◌, ◌<◌};
ghost use Rattle.cs_chain.specs.Chains.Chain.{IsChain};

use crate::judged::Want::{Code, Nowhere, TooLarge};
use cs_chain::{Chain, ChainVerdict, ChainWork, Chains, fits_chain, judge_chain};
use cs_fan::{Counter, OpenGate, fan};
use cs_grammar::Symbol;
use cs_grammar::Symbol::{Nonterminal, Token};
use cs_least::{Costs, Embeds};
use cs_samples::{Lines, SampleError, grammar_of, rules, weights_of};
use std::alloc::{AllocError, Global};
use std::process::Abort;
use std::test::Fail;
use std::thread::Threads;

#[derive(Clone, Copy)]
enum Want {
    Code(u32, &'static [u16]),
    Nowhere,
    TooLarge,
}

fn is_wanted(verdict: &ChainVerdict, want: Want) -> bool {
    match (verdict, want) {
        (ChainVerdict::Feasible { size, derivation }, Code(wanted, code)) => {
            *size == wanted && derivation.rules() == code
        }
        (ChainVerdict::Infeasible, Nowhere) | (ChainVerdict::Large, TooLarge) => true,
        _ => false,
    }
}

// Rules, the limit of sizes, and chains with their verdicts.
#[derive(Clone, Copy)]
struct Row {
    lines: Lines,
    limit: u32,
    wants: &'static [([u16; 5], Want)],
}

const S: Symbol = Nonterminal(1);

const A: Symbol = Nonterminal(2);

const X: Symbol = Token(1);

const Y: Symbol = Token(2);

// s : s 'x' a | a ;  a : 'y' | 'x' s 'x' ;
const SUMS: Row = Row {
    lines: &[(1, &[S, X, A]), (1, &[A]), (2, &[Y]), (2, &[X, S, X])],
    limit: 10_000,
    wants: &[
        ([1, 1, 1, 1, 1], Code(15, &[1, 1, 1, 2, 3, 3, 3, 3])),
        ([1, 3, 4, 2, 2], Code(11, &[1, 2, 3, 4, 2, 3])),
        ([4, 2, 2, 1, 4], Code(11, &[2, 4, 2, 4, 2, 3])),
    ],
};

// s : s | 'x' ;  by two limits.
const OWN: Row = Row {
    lines: &[(1, &[S]), (1, &[X])],
    limit: 10_000,
    wants: &[
        ([1, 1, 1, 1, 1], Code(5, &[1, 1, 1, 2])),
        ([1, 1, 1, 1, 2], Code(4, &[1, 1, 2])),
    ],
};

const OWN_BELOW_4: Row = Row {
    limit: 4,
    wants: &[
        ([1, 1, 1, 1, 1], TooLarge),
        ([1, 1, 1, 1, 2], Code(4, &[1, 1, 2])),
    ],
    ..OWN
};

// s : 'x' ;  a : a | 'x' ;  where no sentence uses a.
const APART: Row = Row {
    lines: &[(1, &[X]), (2, &[A]), (2, &[X])],
    limit: 10_000,
    wants: &[([2, 1, 2, 1, 2], Nowhere), ([2, 1, 2, 1, 3], Nowhere)],
};

// s : a s 'x' | 'y' ;  a : s ;  where each rule has others beside it.
const SIBLINGS: Row = Row {
    lines: &[(1, &[A, S, X]), (1, &[Y]), (2, &[S])],
    limit: 10_000,
    wants: &[
        ([1, 1, 3, 1, 2], Code(7, &[1, 3, 2, 2])),
        ([3, 1, 1, 2, 2], Code(12, &[1, 3, 1, 3, 2, 2, 2])),
    ],
};

fn check(rt: &impl Abort, alloc: Global, row: Row) -> Result<(), SampleError> {
    let Row {
        lines,
        limit,
        wants,
    } = row;
    let grammar = grammar_of(2, 2, rules(alloc, lines)?)?;
    let weights = weights_of(alloc, &[1, 1], limit)?;
    let costs = Costs::new(alloc, &grammar, &weights)?;
    let embeds = Embeds::new(alloc, costs)?;
    for &([outer, place, middle, spot, inner], want) in wants {
        let chain = Chain {
            outer,
            place,
            middle,
            spot,
            inner,
        };
        assert!(rt; fits_chain(&grammar, &chain));
        let verdict = judge_chain(alloc, &embeds, &chain)?;
        assert!(rt; is_wanted(&verdict, want), "{chain:?}");
    }
    Ok(())
}

// Worked by hand: sizes count nodes, leaves included.
#[test]
fn chains_have_their_verdicts(rt: HostRuntime) -> Result<(), Fail> {
    for row in [SUMS, OWN, OWN_BELOW_4, APART, SIBLINGS] {
        check(&rt, rt.alloc(), row)?;
    }
    Ok(())
}

// The verdicts of two chains, by so many workers.
fn judged<R: Threads + Sync>(
    rt: &R,
    alloc: Global,
    work: &ChainWork<'_>,
    first: Chain,
    second: Chain,
    workers: u16,
) -> Result<Vec<ChainVerdict>, AllocError>
    requires first { IsChain work.now.embeds.now.grammar first }
    requires second { IsChain work.now.embeds.now.grammar second }
    requires some { 0 < workers }
    requires few { workers ≤ 64 }
{
    let chains = [first, second];
    let (counter, mut seat) = Counter::new(alloc, 2, workers)?;
    fan(rt, alloc, &chains, work, &OpenGate, &counter, &mut seat)
}

// s : s | 'x' ;  has two chains.
#[test]
fn workers_judge_chains(rt: HostRuntime) -> Result<(), Fail> {
    let alloc = rt.alloc();
    let grammar = grammar_of(2, 2, rules(alloc, OWN.lines)?)?;
    let weights = weights_of(alloc, &[1, 1], 10_000)?;
    let costs = Costs::new(alloc, &grammar, &weights)?;
    let embeds = Embeds::new(alloc, costs)?;
    let work = ChainWork { embeds: &embeds };
    let mut chains = Chains::new(&grammar);
    let first = chains.next().ok_or("none")?;
    let second = chains.next().ok_or("one")?;
    assert!(rt; fits_chain(&grammar, &first));
    assert!(rt; fits_chain(&grammar, &second));
    for workers in 1..4 {
        let verdicts = judged(&rt, alloc, &work, first, second, workers)?;
        assert_eq!(rt; verdicts.len(), 2);
        assert!(rt; is_wanted(&verdicts[0], Code(5, &[1, 1, 1, 2])));
        assert!(rt; is_wanted(&verdicts[1], Code(4, &[1, 1, 2])));
    }
    Ok(())
}
