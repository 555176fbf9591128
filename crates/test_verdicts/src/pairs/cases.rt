// Goals of the sums and the cases that they share: the codes, and what is told of each, were worked by hand.

ghost use Rattle.std.specs.Prelude.{◌<◌, ◌^◌, IfOk, IsTrue, length};
ghost use Rattle.cs_goals.specs.Meets.{IsMeeting};

use crate::trees::prepared::derivation_of;
use cs_goals::{Goal, meets};
use cs_grammar::Mark::{Begin, End, Token};
use cs_grammar::{Derivation, Grammar, Mark, expand, yield_of};
use cs_samples::grammar_of_sums;
use cs_verdicts::{Cases, Named};
use std::alloc::{AllocError, Global};
use std::process::Abort;
use std::test::Fail;

// The code of a tree, and what is told of it: the number of its case, that of the first goal that the case meets, and whether it
// is new.
type Told = (&'static [u16], (u64, u64, bool));

// Whether these are the numbers of a derivation that meets the goal.
fn is_met(
    alloc: Global,
    grammar: &Grammar,
    goal: &Goal,
    derivation: &Derivation,
) -> Result<bool, AllocError>
    requires { length derivation.now < 2 ^ 32 }
    ensures { IfOk result (λ met. IsTrue met → IsMeeting grammar.now goal.now derivation.now) }
{
    match expand(alloc, grammar, derivation) {
        Ok(_) => meets(alloc, grammar, goal, derivation),
        Err(_) => Ok(false),
    }
}

// Want of memory is met by a second try.
fn place(
    alloc: Global,
    cases: &mut Cases,
    goal: &Goal,
    derivation: &Derivation,
) -> Result<Named, AllocError>
    requires { IsMeeting cases.old.grammar goal.now derivation.now }
{
    let tokens = yield_of(alloc, cases.grammar(), derivation)?;
    match cases.place(goal, derivation, &tokens) {
        Ok(told) => Ok(told),
        Err(_) => cases.place(goal, derivation, &tokens),
    }
}

// Whether this is told of a derivation when it is placed for the goal, which its tree meets.
fn is_placed(
    alloc: Global,
    cases: &mut Cases,
    goal: &Goal,
    derivation: &Derivation,
    want: Named,
) -> Result<bool, AllocError> {
    if derivation.rules().len() > 10 || !is_met(alloc, cases.grammar(), goal, derivation)? {
        return Ok(false);
    }
    Ok(place(alloc, cases, goal, derivation)? == want)
}

// What is told of the code is what is wanted.
fn check(
    rt: &impl Abort,
    alloc: Global,
    cases: &mut Cases,
    goal: Goal,
    (code, (case, first, fresh)): Told,
) -> Result<(), AllocError> {
    let derivation = derivation_of(alloc, code)?;
    let want = Named { case, first, fresh };
    assert!(rt;
        is_placed(alloc, cases, &goal, &derivation, want)?,
        "{goal:?}"
    );
    Ok(())
}

// The rule goals, of which two have one code, and the third is met by an earlier case too.
const RULES: &[(u16, Told)] = &[
    (1, (&[1, 2, 3, 3], (1, 1, true))),
    (2, (&[2, 3], (2, 1, true))),
    (3, (&[2, 3], (2, 1, false))),
    (4, (&[2, 4, 2, 3], (3, 3, true))),
];

// Contexts behind them, the last of which no case meets yet.
const CONTEXTS: &[((u16, u16, u16), Told)] = &[
    ((2, 1, 3), (&[2, 3], (2, 1, false))),
    ((4, 2, 2), (&[2, 4, 2, 3], (3, 3, false))),
    ((1, 1, 1), (&[1, 1, 2, 3, 3, 3], (4, 4, true))),
];

// And pairs: NUM is 1, '+' 2, '(' 3 and ')' 4.
const PAIRS: &[((Mark, Mark), Told)] = &[
    ((Begin, Token(3)), (&[2, 4, 2, 3], (3, 3, false))),
    ((Token(1), End), (&[2, 3], (2, 1, false))),
    ((Token(2), Token(1)), (&[1, 2, 3, 3], (1, 1, false))),
    ((Token(4), Token(4)), (&[2, 4, 2, 4, 2, 3], (5, 5, true))),
];

fn check_rules(rt: &impl Abort, alloc: Global, cases: &mut Cases) -> Result<(), AllocError> {
    for &(rule, told) in RULES {
        check(rt, alloc, cases, Goal::Rule(rule), told)?;
    }
    Ok(())
}

fn check_contexts(rt: &impl Abort, alloc: Global, cases: &mut Cases) -> Result<(), AllocError> {
    for &((outer, place, inner), told) in CONTEXTS {
        let goal = Goal::Context {
            outer,
            place,
            inner,
        };
        check(rt, alloc, cases, goal, told)?;
    }
    Ok(())
}

fn check_pairs(rt: &impl Abort, alloc: Global, cases: &mut Cases) -> Result<(), AllocError> {
    for &((left, right), told) in PAIRS {
        check(rt, alloc, cases, Goal::Pair { left, right }, told)?;
    }
    Ok(())
}

fn check_all(rt: &impl Abort, alloc: Global, cases: &mut Cases) -> Result<(), AllocError> {
    check_rules(rt, alloc, cases)?;
    check_contexts(rt, alloc, cases)?;
    check_pairs(rt, alloc, cases)
}

#[test]
fn cases_of_sums(rt: HostRuntime) -> Result<(), Fail> {
    let grammar = grammar_of_sums(rt.alloc())?;
    let mut cases = Cases::new(rt.alloc(), &grammar);
    check_all(&rt, rt.alloc(), &mut cases)?;
    Ok(())
}
