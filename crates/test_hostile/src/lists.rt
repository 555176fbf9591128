// Lists of rule numbers. Tokens were counted by hand: each use of the first rule of sums adds two.

ghost use Rattle.cs_grammar.specs.Tree.{IsDerivationOf};

use cs_goals::{Goal, meets};
use cs_grammar::{Derivation, ExpandError, Grammar, Mark, expand};
use cs_samples::grammar_of_sums;
use std::alloc::{AllocError, Global};
use std::process::Abort;
use std::test::Fail;

// These numbers, each so many times.
fn list(alloc: Global, parts: &[(u16, u32)]) -> Result<Derivation, AllocError> {
    let mut derivation = Derivation::new(alloc);
    for (rule, times) in parts {
        for _ in 0..*times {
            derivation.push(*rule)?;
        }
    }
    Ok(derivation)
}

// The greatest number that a list can hold names no rule, no place and no token, in a goal as in a list.
const NUMBER: u16 = u16::MAX;

const GOALS: [(Goal, bool); 7] = [
    (Goal::Rule(2), true),
    (
        Goal::Context {
            outer: 1,
            place: 1,
            inner: 2,
        },
        true,
    ),
    (
        Goal::Pair {
            left: Mark::Token(1),
            right: Mark::Token(2),
        },
        true,
    ),
    (Goal::Rule(4), false),
    (Goal::Rule(NUMBER), false),
    (
        Goal::Context {
            outer: NUMBER,
            place: NUMBER,
            inner: NUMBER,
        },
        false,
    ),
    (
        Goal::Pair {
            left: Mark::Token(NUMBER),
            right: Mark::Token(NUMBER),
        },
        false,
    ),
];

// The goals are met, or not, by a derivation.
fn check_goals(
    rt: &impl Abort,
    alloc: Global,
    grammar: &Grammar,
    derivation: &Derivation,
) -> Result<(), AllocError>
    requires { IsDerivationOf grammar.now derivation.now }
{
    for (goal, want) in GOALS {
        let met = meets(alloc, grammar, &goal, derivation)?;
        assert!(rt; met == want, "{goal:?}");
    }
    Ok(())
}

// The list is a derivation of so many tokens, which meets the goals.
fn check_derivation(
    rt: &impl Abort,
    alloc: Global,
    grammar: &Grammar,
    derivation: &Derivation,
    count: usize,
) -> Result<(), AllocError> {
    assert!(rt; derivation.rules().len() < 300_000);
    match expand(alloc, grammar, derivation) {
        Ok(tokens) => {
            assert!(rt; tokens.len() == count);
            check_goals(rt, alloc, grammar, derivation)
        }
        Err(error) => panic!(rt; "{error}"),
    }
}

#[test]
fn a_deep_derivation(rt: HostRuntime) -> Result<(), Fail> {
    let grammar = grammar_of_sums(rt.alloc())?;
    let derivation = list(rt.alloc(), &[(1, 100_000), (2, 1), (3, 100_001)])?;
    check_derivation(&rt, rt.alloc(), &grammar, &derivation, 200_001)?;
    Ok(())
}

// Numbers, each so many times, and what is wrong with them.
const LISTS: [(&[(u16, u32)], ExpandError); 5] = [
    (&[(NUMBER, 200_001)], ExpandError::WrongRule { at: 0 }),
    (
        &[(1, 100_000), (NUMBER, 100_001)],
        ExpandError::WrongRule { at: 100_000 },
    ),
    (
        &[(2, 1), (3, 1), (NUMBER, 199_999)],
        ExpandError::TooMany { at: 2 },
    ),
    (&[(1, 200_001)], ExpandError::TooFew),
    (&[(0, 200_001)], ExpandError::WrongRule { at: 0 }),
];

#[test]
fn lists_that_are_no_derivation(rt: HostRuntime) -> Result<(), Fail> {
    let grammar = grammar_of_sums(rt.alloc())?;
    for (parts, want) in LISTS {
        let derivation = list(rt.alloc(), parts)?;
        assert!(rt; derivation.rules().len() < 300_000);
        let fault = expand(rt.alloc(), &grammar, &derivation).err();
        assert!(rt; fault == Some(want), "{fault:?}");
    }
    Ok(())
}
