use crate::trees::prepared::derivation_of;
use cs_choices::Criteria;
use cs_goals::{Goal, Goals, fits_goal, meets};
use cs_grammar::Mark::{Begin, End, Token};
use cs_grammar::{Grammar, Mark, Symbol, expand};
use cs_samples::{grammar_of, grammar_of_sums, rules};
use std::alloc::{AllocError, Global};
use std::process::Abort;
use std::test::Fail;

fn context(outer: u16, place: u16, inner: u16) -> Goal {
    Goal::Context {
        outer,
        place,
        inner,
    }
}

fn pair(left: Mark, right: Mark) -> Goal {
    Goal::Pair { left, right }
}

const ALL: Criteria = Criteria {
    rule: true,
    cdrc: true,
    pair: true,
};

// Whether these goals, which are of the grammar, come next.
fn come(grammar: &Grammar, goals: &mut Goals, wants: &[Goal]) -> bool {
    for want in wants {
        if !fits_goal(grammar, want) || goals.next() != Some(*want) {
            return false;
        }
    }
    true
}

fn is_at_end(goals: &mut Goals) -> bool {
    goals.next().is_none() && goals.next().is_none()
}

fn contexts_of_sums() -> [Goal; 8] {
    [
        context(1, 1, 1),
        context(1, 1, 2),
        context(1, 3, 3),
        context(1, 3, 4),
        context(2, 1, 3),
        context(2, 1, 4),
        context(4, 2, 1),
        context(4, 2, 2),
    ]
}

// Listed by hand from the definition of the three lists.
#[test]
fn goals_of_sums_in_order(rt: HostRuntime) -> Result<(), Fail> {
    let grammar = grammar_of_sums(rt.alloc())?;
    let mut goals = Goals::new(&grammar, ALL);
    let rules = [1, 2, 3, 4].map(Goal::Rule);
    assert!(rt; come(&grammar, &mut goals, &rules));
    assert!(rt; come(&grammar, &mut goals, &contexts_of_sums()));
    for left in [Begin, Token(1), Token(2), Token(3), Token(4)] {
        let pairs = [Token(1), Token(2), Token(3), Token(4), End].map(|right| pair(left, right));
        assert!(rt; come(&grammar, &mut goals, &pairs));
    }
    assert!(rt; is_at_end(&mut goals));
    Ok(())
}

// Whether these are the goals of the grammar, and the last.
fn are_all(grammar: &Grammar, criteria: Criteria, wants: &[Goal]) -> bool {
    let mut goals = Goals::new(grammar, criteria);
    come(grammar, &mut goals, wants) && is_at_end(&mut goals)
}

// Listed by hand.
#[test]
fn chosen_goals_of_small_grammars(rt: HostRuntime) -> Result<(), Fail> {
    // s : ;  with no token, and  s : A ;  with A 1.
    let empty = grammar_of(0, 1, rules(rt.alloc(), &[(1, &[])])?)?;
    assert!(rt; are_all(&empty, ALL, &[Goal::Rule(1), pair(Begin, End)]));
    let one = grammar_of(1, 1, rules(rt.alloc(), &[(1, &[Symbol::Token(1)])])?)?;
    let pairs = Criteria { rule: false, ..ALL };
    let wants = [
        pair(Begin, Token(1)),
        pair(Begin, End),
        pair(Token(1), Token(1)),
        pair(Token(1), End),
    ];
    assert!(rt; are_all(&one, pairs, &wants));
    Ok(())
}

// Numbers that the grammar does not have, and marks on the wrong side.
#[test]
fn goals_that_do_not_fit(rt: HostRuntime) -> Result<(), Fail> {
    let grammar = grammar_of_sums(rt.alloc())?;
    let goals = [
        Goal::Rule(0),
        Goal::Rule(5),
        context(1, 0, 1),
        context(1, 2, 1),
        context(1, 1, 3),
        context(1, 4, 3),
        context(5, 1, 1),
        pair(End, Token(1)),
        pair(Begin, Begin),
        pair(Token(5), End),
        pair(Begin, Token(0)),
    ];
    for goal in goals {
        assert!(rt; !fits_goal(&grammar, &goal), "{goal:?}");
    }
    Ok(())
}

// Whether the derivation with these rules meets a goal.
fn is_met(
    rt: &impl Abort,
    alloc: Global,
    grammar: &Grammar,
    code: &[u16],
    goal: &Goal,
) -> Result<bool, AllocError> {
    let derivation = derivation_of(alloc, code)?;
    assert!(rt; derivation.rules().len() < 10);
    match expand(alloc, grammar, &derivation) {
        Ok(_) => meets(alloc, grammar, goal, &derivation),
        Err(error) => panic!(rt; "{error}"),
    }
}

// Rules 2, 4, 2 and 3.
const NESTED: &[u16] = &[2, 4, 2, 3];

// Read off the trees drawn by hand.
#[test]
fn which_derivations_meet_a_goal(rt: HostRuntime) -> Result<(), Fail> {
    let grammar = grammar_of_sums(rt.alloc())?;
    let cases: [(&[u16], Goal, bool); 16] = [
        (NESTED, Goal::Rule(4), true),
        (&[2, 3], Goal::Rule(4), false),
        (NESTED, context(2, 1, 4), true),
        (NESTED, context(4, 2, 2), true),
        (NESTED, context(2, 1, 3), true),
        (NESTED, context(4, 2, 1), false),
        (NESTED, context(1, 1, 2), false),
        // Rule 3 is used, but not below rule 1.
        (&[1, 2, 3, 4, 2, 3], context(1, 3, 4), true),
        (&[1, 2, 3, 4, 2, 3], context(1, 3, 3), false),
        (NESTED, pair(Begin, Token(3)), true),
        (NESTED, pair(Token(3), Token(1)), true),
        (NESTED, pair(Token(4), End), true),
        (NESTED, pair(Token(1), Token(3)), false),
        (NESTED, pair(Token(3), Token(4)), false),
        (NESTED, pair(Begin, Token(1)), false),
        (&[2, 3], pair(Begin, End), false),
    ];
    for (code, goal, want) in cases {
        let got = is_met(&rt, rt.alloc(), &grammar, code, &goal)?;
        assert!(rt; got == want, "{code:?} {goal:?}");
    }
    Ok(())
}
