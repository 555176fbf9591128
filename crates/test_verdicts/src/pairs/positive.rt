ghost use Rattle.std.specs.Prelude.{◌≡◌, ◌<◌, length};

use crate::pairs::prepared::Want::{Code, Nowhere, OfSize, TooLarge};
use crate::pairs::prepared::{A, FIRST, FOURTH, SECOND, THIRD, Want, X, Y, Z, is_wanted};
use crate::trees::prepared::embeds_of;
use cs_choices::Criteria;
use cs_goals::{Goal, fits_goal};
use cs_grammar::Symbol::{Nonterminal, Token};
use cs_grammar::{Grammar, Mark, Rule, Symbol, Weights, number_of};
use cs_least::Embeds;
use cs_samples::{Lines, SampleError, grammar_of, grammar_of_sums, rules, sums, weights_of};
use cs_verdicts::{Positive, Positives, Tables, Verdict, judge, judge_tree_goal};
use std::alloc::{AllocError, Global};
use std::process::Abort;
use std::test::Fail;

// Rules, the numbers of four tokens, a limit, and the verdict of each rule.
#[derive(Clone, Copy)]
struct Row {
    lines: Lines,
    numbers: [u32; 4],
    limit: u32,
    wants: &'static [Want],
}

// The verdict of each rule is the wanted one.
fn check_told(
    rt: &impl Abort,
    alloc: Global,
    tables: &Tables,
    wants: &[Want],
) -> Result<(), AllocError> {
    for (place, want) in wants.iter().enumerate() {
        assert!(rt; place < 100);
        let goal = Goal::Rule(number_of(place));
        assert!(rt; fits_goal(tables.grammar(), &goal));
        assert!(rt; is_wanted(&judge(alloc, tables, &goal)?, *want), "{goal:?}");
    }
    Ok(())
}

fn check_by(
    rt: &impl Abort,
    alloc: Global,
    grammar: &Grammar,
    weights: &Weights,
    wants: &[Want],
) -> Result<(), AllocError>
    requires { length weights.now.numbers ≡ grammar.now.tokens }
{
    let tables = Tables::new(alloc, grammar, weights)?;
    check_told(rt, alloc, &tables, wants)
}

fn check(rt: &impl Abort, alloc: Global, row: Row) -> Result<(), SampleError> {
    let grammar = grammar_of(4, 14, rules(alloc, row.lines)?)?;
    let weights = weights_of(alloc, &row.numbers, row.limit)?;
    Ok(check_by(rt, alloc, &grammar, &weights, row.wants)?)
}

const S: Symbol = Nonterminal(1);

const T: Symbol = Nonterminal(3);

const LONG: Symbol = Token(4);

// a : a | 'x' ;
const OWN: Row = Row {
    lines: &[(1, &[S]), (1, &[X])],
    numbers: [1; 4],
    limit: 10_000,
    wants: &[Code(3, &[1, 2]), Code(2, &[2])],
};

// s : a a ;  a : 'x' | 'y' ;
const TWICE: Row = Row {
    lines: &[(1, &[A, A]), (2, &[X]), (2, &[Y])],
    numbers: [1; 4],
    limit: 10_000,
    wants: &[
        Code(5, &[1, 2, 2]),
        Code(5, &[1, 2, 2]),
        Code(5, &[1, 3, 2]),
    ],
};

const TWICE_BY_WEIGHT: Row = Row {
    numbers: [5, 1, 1, 1],
    wants: &[
        Code(5, &[1, 3, 3]),
        Code(9, &[1, 2, 3]),
        Code(5, &[1, 3, 3]),
    ],
    ..TWICE
};

// s : ;
const EMPTY: Row = Row {
    lines: &[(1, &[])],
    numbers: [1; 4],
    limit: 10_000,
    wants: &[Code(1, &[1])],
};

// s : a t ;  a : LONG | 'x' 'y' ;  t : 'z' ;  with LONG 4 of 129, the others of 17.
const TEXTS: Row = Row {
    lines: &[(1, &[A, T]), (2, &[LONG]), (2, &[X, Y]), (3, &[Z])],
    numbers: [17, 17, 17, 129],
    limit: 100_000,
    wants: &[
        Code(54, &[1, 3, 4]),
        Code(149, &[1, 2, 4]),
        OfSize(54),
        OfSize(54),
    ],
};

// s : 'x' ;  where the leaf is at the limit.
const LARGE: Row = Row {
    lines: &[(1, &[X])],
    numbers: [1_000_000; 4],
    limit: 1_000_000,
    wants: &[TooLarge],
};

// s : 'x' | a ;  b : 'x' ;  where no sentence uses the last rule, and a has no tree.
const USELESS: Row = Row {
    lines: &[(1, &[X]), (1, &[A]), (3, &[X])],
    numbers: [1; 4],
    limit: 10_000,
    wants: &[OfSize(2), Nowhere, Nowhere],
};

// Reckoned by hand: sizes by weight, ties by the lowest rule.
#[test]
fn rule_goals_by_weight(rt: HostRuntime) -> Result<(), Fail> {
    for row in [OWN, TWICE, TWICE_BY_WEIGHT, EMPTY, TEXTS, LARGE, USELESS] {
        check(&rt, rt.alloc(), row)?;
    }
    Ok(())
}

// Worked by hand from the sums of an arithmetic grammar, with  u : u NUM ;  that has no tree.
const CONTEXTS: [((u16, u16, u16), Want); 9] = [
    ((1, 1, 1), Code(11, &[1, 1, 2, 3, 3, 3])),
    ((1, 1, 2), OfSize(7)),
    ((1, 3, 3), OfSize(7)),
    ((1, 3, 4), OfSize(11)),
    ((2, 1, 3), OfSize(3)),
    ((2, 1, 4), OfSize(7)),
    ((4, 2, 1), OfSize(11)),
    ((4, 2, 2), OfSize(7)),
    ((5, 1, 5), Nowhere),
];

fn check_contexts(rt: &impl Abort, alloc: Global, embeds: &Embeds) -> Result<(), AllocError> {
    for ((outer, place, inner), want) in CONTEXTS {
        let goal = Goal::Context {
            outer,
            place,
            inner,
        };
        assert!(rt; fits_goal(embeds.grammar(), &goal));
        let verdict = judge_tree_goal(alloc, embeds, &goal)?;
        assert!(rt; is_wanted(&verdict, want), "{goal:?}");
    }
    Ok(())
}

// The rules of sums, and behind them the one of `u`.
fn sums_and_one(alloc: Global) -> Result<Vec<Rule>, AllocError> {
    let mut rules = sums(alloc)?;
    rules.push(Rule::new(3, [T, X].to_vec(alloc)?))?;
    Ok(rules)
}

fn check_context_goals(rt: &impl Abort, alloc: Global) -> Result<(), SampleError> {
    let grammar = grammar_of(4, 3, sums_and_one(alloc)?)?;
    let weights = Weights::nodes(alloc, 4)?;
    let embeds = embeds_of(alloc, &grammar, &weights)?;
    Ok(check_contexts(rt, alloc, &embeds)?)
}

#[test]
fn context_goals_of_sums(rt: HostRuntime) -> Result<(), Fail> {
    check_context_goals(&rt, rt.alloc())?;
    Ok(())
}

// How many pair goals with this left mark are feasible.
fn feasible_behind(
    rt: &impl Abort,
    alloc: Global,
    tables: &Tables,
    left: Mark,
) -> Result<u16, AllocError> {
    let mut feasible = 0u16;
    for right in [FIRST, SECOND, THIRD, FOURTH, Mark::End] {
        let goal = Goal::Pair { left, right };
        assert!(rt; fits_goal(tables.grammar(), &goal));
        if let Verdict::Feasible { .. } = judge(alloc, tables, &goal)? {
            feasible = feasible.saturating_add(1);
        }
    }
    Ok(feasible)
}

fn count_pairs(rt: &impl Abort, alloc: Global, tables: &Tables) -> Result<u16, AllocError> {
    let mut feasible = 0u16;
    for left in [Mark::Begin, FIRST, SECOND, THIRD, FOURTH] {
        let found = feasible_behind(rt, alloc, tables, left)?;
        feasible = feasible.saturating_add(found);
    }
    Ok(feasible)
}

fn feasible_pairs(
    rt: &impl Abort,
    alloc: Global,
    grammar: &Grammar,
    weights: &Weights,
) -> Result<u16, AllocError>
    requires { length weights.now.numbers ≡ grammar.now.tokens }
{
    let tables = Tables::new(alloc, grammar, weights)?;
    count_pairs(rt, alloc, &tables)
}

fn feasible_pairs_of_sums(rt: &impl Abort, alloc: Global) -> Result<u16, SampleError> {
    let grammar = grammar_of_sums(alloc)?;
    let weights = Weights::nodes(alloc, 4)?;
    Ok(feasible_pairs(rt, alloc, &grammar, &weights)?)
}

// The pair goals of the sums: 12 of 25 are feasible, as a table of neighbours by hand shows.
#[test]
fn pair_goals_of_sums(rt: HostRuntime) -> Result<(), Fail> {
    let feasible = feasible_pairs_of_sums(&rt, rt.alloc())?;
    assert!(rt; feasible == 12);
    Ok(())
}

// The place of a goal's kind.
fn kind_of(goal: &Goal) -> usize
    ensures { result < 3 }
{
    match goal {
        Goal::Rule(_) => 0,
        Goal::Context { .. } => 1,
        Goal::Pair { .. } => 2,
    }
}

// Positives of each kind, and feasible ones.
#[derive(Clone, Copy)]
struct Counts {
    given: [u16; 3],
    feasible: [u16; 3],
}

impl Counts {
    fn add(&mut self, positive: &Positive) {
        let kind = kind_of(&positive.goal);
        self.given[kind] = self.given[kind].saturating_add(1);
        if let Verdict::Feasible { .. } = positive.verdict {
            self.feasible[kind] = self.feasible[kind].saturating_add(1);
        }
    }
}

// Counts the 37 that come first.
fn count(rt: &impl Abort, alloc: Global, positives: &mut Positives) -> Result<Counts, AllocError> {
    let mut counts = Counts {
        given: [0; 3],
        feasible: [0; 3],
    };
    for _ in 0..37 {
        match positives.next(alloc)? {
            Some(positive) => counts.add(&positive),
            None => panic!(rt; "too few"),
        }
    }
    Ok(counts)
}

fn is_at_end(alloc: Global, positives: &mut Positives) -> Result<bool, AllocError> {
    Ok(positives.next(alloc)?.is_none())
}

const ALL: Criteria = Criteria {
    rule: true,
    cdrc: true,
    pair: true,
};

// The goals of the sums by kind: 4 rules, 8 rules in context and 25 pairs, of which all, all and 12 are feasible, as the
// tests above have them; and none when all were given.
fn check_positives<'t>(
    rt: &impl Abort,
    alloc: Global,
    tables: &'t Tables<'t>,
) -> Result<(), AllocError> {
    let mut positives = Positives::new(tables, ALL);
    let counts = count(rt, alloc, &mut positives)?;
    assert!(rt; counts.given == [4, 8, 25]);
    assert!(rt; counts.feasible == [4, 8, 12]);
    assert!(rt; is_at_end(alloc, &mut positives)?);
    assert!(rt; is_at_end(alloc, &mut positives)?);
    Ok(())
}

fn check_positives_by(
    rt: &impl Abort,
    alloc: Global,
    grammar: &Grammar,
    weights: &Weights,
) -> Result<(), AllocError>
    requires { length weights.now.numbers ≡ grammar.now.tokens }
{
    let tables = Tables::new(alloc, grammar, weights)?;
    check_positives(rt, alloc, &tables)
}

fn check_sums(rt: &impl Abort, alloc: Global) -> Result<(), SampleError> {
    let grammar = grammar_of_sums(alloc)?;
    let weights = Weights::nodes(alloc, 4)?;
    Ok(check_positives_by(rt, alloc, &grammar, &weights)?)
}

#[test]
fn positives_of_sums(rt: HostRuntime) -> Result<(), Fail> {
    check_sums(&rt, rt.alloc())?;
    Ok(())
}
