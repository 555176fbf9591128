// Edits, poisoned pairs and negatives. The lists of edits, their results and their counts were worked
// out by hand from what an edit is; which pairs stand in sentences of the two grammars too.
ghost use Rattle.std.specs.Prelude.{◌≡◌, ◌↔◌, IsTrue, All, length};
ghost use Rattle.cs_grammar.specs.Grammar.{IsNumberOf};

use crate::trees::prepared::pairs_of;
use cs_choices::Operators;
use cs_grammar::{Grammar, Mark, Symbol, Weights};
use cs_mutate::Edit::{Delete, Insert, Replace, Swap};
use cs_mutate::{
    Edit, Edits, Keeper, Negative, Negatives, apply, each_mutant_once, edit_fits, few_kept,
    one_list_of_kept, one_list_of_negatives, poison,
};
use cs_pairs::Pairs;
use cs_samples::{grammar_of, grammar_of_sums, rules};
use std::alloc::{AllocError, Global};
use std::process::Abort;
use std::test::Fail;

const ALL: Operators = Operators {
    delete: true,
    insert: true,
    replace: true,
    swap: true,
};

const BEGIN: Mark = Mark::Begin;

const END: Mark = Mark::End;

// An edit, the marks of its pair and their place.
type Row = (Edit, Mark, Mark, u32);

// A list with the number of its edits, the first of its negatives and their number.
#[derive(Clone, Copy)]
struct Case {
    base: &'static [u16],
    edits: u32,
    first: &'static [Row],
    negatives: usize,
}

// So many edits are given, and then none.
fn count_edits(rt: &impl Abort, mut edits: Edits) -> u32 {
    let mut count = 0u32;
    for _ in 0..1000 {
        if edits.next().is_some() {
            count = count.saturating_add(1);
        }
    }
    assert!(rt; edits.next().is_none());
    count
}

fn are_tokens(tokens: u16, list: &[u16]) -> bool
    ensures { IsTrue result ↔ All (IsNumberOf tokens) list.now }
{
    list.iter().all(|token| 0 < *token && *token <= tokens)
}

// The negatives that come, at most 100, and then none.
fn gather(
    rt: &impl Abort,
    alloc: Global,
    pairs: &Pairs,
    base: &[u16],
) -> Result<Vec<Negative>, AllocError> {
    assert!(rt; base.len() < 100 && are_tokens(pairs.grammar().tokens(), base));
    let mut negatives = Negatives::new(alloc, pairs, base, ALL);
    let mut found = Vec::new(alloc);
    for _ in 0..100 {
        if let Some(negative) = negatives.next()? {
            found.push(negative)?;
        }
    }
    assert!(rt; negatives.next()?.is_none());
    Ok(found)
}

// Whether the negatives begin with these.
fn begin_with(found: &[Negative], first: &[Row]) -> bool {
    for (negative, row) in found.iter().zip(first) {
        if (negative.edit, negative.left, negative.right, negative.at) != *row {
            return false;
        }
    }
    true
}

// The negative has a list that `poison` refuses at its place.
fn check_negative(
    rt: &impl Abort,
    alloc: Global,
    pairs: &Pairs,
    base: &[u16],
    negative: &Negative,
) -> Result<(), AllocError> {
    let tokens = pairs.grammar().tokens();
    assert!(rt; base.len() < 100 && are_tokens(tokens, base));
    assert!(rt; edit_fits(base.len() as u32, tokens, &negative.edit));
    let list = apply(alloc, base, &negative.edit)?;
    assert!(rt; list.len() < 200 && are_tokens(tokens, &list));
    assert!(rt; poison(pairs, &list) == Some(negative.at));
    Ok(())
}

// The list has so many edits and negatives, these first.
fn check_case(rt: &impl Abort, alloc: Global, pairs: &Pairs, case: Case) -> Result<(), AllocError> {
    let tokens = pairs.grammar().tokens();
    assert!(rt; case.base.len() < 100 && are_tokens(tokens, case.base));
    let edits = Edits::new(tokens, case.base, ALL);
    assert!(rt; count_edits(rt, edits) == case.edits);
    let found = gather(rt, alloc, pairs, case.base)?;
    assert!(rt; found.len() == case.negatives && begin_with(&found, case.first));
    for negative in &found {
        check_negative(rt, alloc, pairs, case.base, negative)?;
    }
    Ok(())
}

fn check_each(
    rt: &impl Abort,
    alloc: Global,
    pairs: &Pairs,
    cases: &[Case],
) -> Result<(), AllocError> {
    for case in cases {
        check_case(rt, alloc, pairs, *case)?;
    }
    Ok(())
}

fn check_cases(
    rt: &impl Abort,
    alloc: Global,
    grammar: &Grammar,
    cases: &[Case],
) -> Result<(), AllocError> {
    let weights = Weights::nodes(alloc, grammar.tokens())?;
    let pairs = pairs_of(alloc, grammar, &weights)?;
    check_each(rt, alloc, &pairs, cases)
}

#[test]
fn edits_come_in_order(rt: HostRuntime) -> Result<(), Fail> {
    let mut edits = Edits::new(2, &[1, 1, 2], ALL);
    let wants = [
        Delete(0),
        Delete(2),
        Insert(0, 1),
        Insert(0, 2),
        Insert(1, 2),
        Insert(2, 2),
        Insert(3, 1),
        Replace(0, 2),
        Replace(1, 2),
        Replace(2, 1),
        Swap(1),
    ];
    for want in wants {
        assert!(rt; edits.next() == Some(want), "{want:?}");
    }
    assert!(rt; edits.next().is_none());
    assert!(rt; edits.next().is_none());
    Ok(())
}

#[test]
fn edits_are_counted(rt: HostRuntime) -> Result<(), Fail> {
    let chosen = Operators {
        insert: false,
        swap: false,
        ..ALL
    };
    assert!(rt; count_edits(&rt, Edits::new(2, &[1, 1, 2], chosen)) == 5);
    assert!(rt; count_edits(&rt, Edits::new(3, &[], ALL)) == 3);
    assert!(rt; count_edits(&rt, Edits::new(0, &[], ALL)) == 0);
    Ok(())
}

#[test]
fn edits_change_lists(rt: HostRuntime) -> Result<(), Fail> {
    let cases: [(Edit, &[u16]); 6] = [
        (Delete(1), &[1, 3]),
        (Insert(0, 4), &[4, 1, 2, 3]),
        (Insert(3, 4), &[1, 2, 3, 4]),
        (Replace(2, 4), &[1, 2, 4]),
        (Swap(0), &[2, 1, 3]),
        (Swap(1), &[1, 3, 2]),
    ];
    for (edit, want) in cases {
        assert!(rt; edit_fits(3, 4, &edit));
        let list = apply(rt.alloc(), &[1, 2, 3], &edit)?;
        assert!(rt; list.as_slice() == want, "{edit:?}");
    }
    Ok(())
}

#[test]
fn edits_outside_a_list(rt: HostRuntime) -> Result<(), Fail> {
    let outside = [
        Delete(3),
        Insert(4, 1),
        Insert(0, 5),
        Insert(0, 0),
        Replace(3, 1),
        Replace(0, 5),
        Swap(2),
        Swap(u32::MAX),
    ];
    for edit in outside {
        assert!(rt; !edit_fits(3, 4, &edit), "{edit:?}");
    }
    Ok(())
}

const NUM: Mark = Mark::Token(1);

const PLUS: Mark = Mark::Token(2);

const OPENING: Mark = Mark::Token(3);

const CLOSING: Mark = Mark::Token(4);

const THREE: Case = Case {
    base: &[1, 2, 1],
    edits: 27,
    first: &[
        (Delete(0), BEGIN, PLUS, 0),
        (Delete(1), NUM, NUM, 1),
        (Delete(2), PLUS, END, 2),
        (Insert(0, 1), NUM, NUM, 1),
        (Insert(0, 2), BEGIN, PLUS, 0),
        (Insert(0, 4), BEGIN, CLOSING, 0),
        (Insert(1, 2), PLUS, PLUS, 2),
        (Insert(1, 3), NUM, OPENING, 1),
    ],
    negatives: 23,
};

const ONE: Case = Case {
    base: &[1],
    edits: 11,
    first: &[(Delete(0), BEGIN, END, 0), (Insert(0, 1), NUM, NUM, 1)],
    negatives: 9,
};

// A list that has a poisoned pair itself.
const POISONED: Case = Case {
    base: &[1, 1],
    edits: 17,
    first: &[
        (Insert(0, 1), NUM, NUM, 1),
        (Insert(0, 2), BEGIN, PLUS, 0),
        (Insert(0, 3), NUM, NUM, 2),
    ],
    negatives: 13,
};

#[test]
fn negatives_of_sums(rt: HostRuntime) -> Result<(), Fail> {
    let sums = grammar_of_sums(rt.alloc())?;
    check_cases(&rt, rt.alloc(), &sums, &[THREE, ONE, POISONED])?;
    Ok(())
}

// s : 'x' 'x' ;
#[test]
fn a_sentence_of_two_has_no_negative(rt: HostRuntime) -> Result<(), Fail> {
    let x = Symbol::Token(1);
    let twice = grammar_of(1, 1, rules(rt.alloc(), &[(1, &[x, x])])?)?;
    let case = Case {
        base: &[1, 1],
        edits: 2,
        first: &[],
        negatives: 0,
    };
    check_cases(&rt, rt.alloc(), &twice, &[case])?;
    each_mutant_once();
    one_list_of_negatives();
    Ok(())
}

// What a keeper keeps of a list's negatives, at most 100.
fn keep(
    rt: &impl Abort,
    alloc: Global,
    pairs: &Pairs,
    base: &[u16],
    keeper: &mut Keeper,
) -> Result<Vec<Edit>, AllocError>
    requires { keeper.old.tokens ≡ pairs.now.grammar.tokens }
    ensures { keeper.new.tokens ≡ keeper.old.tokens }
{
    assert!(rt; base.len() < 100 && are_tokens(pairs.grammar().tokens(), base));
    let mut negatives = Negatives::new(alloc, pairs, base, ALL);
    let mut kept = Vec::new(alloc);
    for _ in 0..100 {
        if let Some(negative) = keeper.next(&mut negatives)? {
            kept.push(negative.edit)?;
        }
    }
    Ok(kept)
}

// With one of each operator and left mark. Of the others two pairs are poisoned, as `NUM NUM` at two places of a replacement, or
// the operator and the left mark are those of one before.
const KEPT: [Edit; 11] = [
    Delete(0),
    Delete(1),
    Delete(2),
    Insert(0, 1),
    Insert(0, 2),
    Insert(1, 2),
    Replace(0, 3),
    Replace(0, 4),
    Replace(1, 3),
    Replace(1, 4),
    Replace(2, 4),
];

// How many are kept of each operator and left mark, how many so of a list, and how many of the same list behind it.
const COUNTS: [(Option<u16>, usize, usize); 4] = [
    (Some(1), 11, 0),
    (Some(2), 14, 8),
    (Some(3), 14, 11),
    (None, 23, 23),
];

fn check_kept(
    rt: &impl Abort,
    alloc: Global,
    pairs: &Pairs,
    (first, once, again): (Option<u16>, usize, usize),
) -> Result<(), AllocError> {
    let mut keeper = Keeper::new(alloc, first, pairs.grammar().tokens())?;
    let kept = keep(rt, alloc, pairs, THREE.base, &mut keeper)?;
    let are_kept = first != Some(1) || kept.as_slice() == KEPT.as_slice();
    assert!(rt; kept.len() == once && are_kept, "{first:?}");
    let more = keep(rt, alloc, pairs, THREE.base, &mut keeper)?;
    assert!(rt; more.len() == again, "{first:?}");
    Ok(())
}

fn check_counts(rt: &impl Abort, alloc: Global, pairs: &Pairs) -> Result<(), AllocError> {
    for row in COUNTS {
        check_kept(rt, alloc, pairs, row)?;
    }
    Ok(())
}

fn check_kept_by(
    rt: &impl Abort,
    alloc: Global,
    grammar: &Grammar,
    weights: &Weights,
) -> Result<(), AllocError>
    requires { length weights.now.numbers ≡ grammar.now.tokens }
{
    let pairs = pairs_of(alloc, grammar, weights)?;
    check_counts(rt, alloc, &pairs)
}

#[test]
fn kept_negatives_of_sums(rt: HostRuntime) -> Result<(), Fail> {
    let sums = grammar_of_sums(rt.alloc())?;
    let weights = Weights::nodes(rt.alloc(), 4)?;
    check_kept_by(&rt, rt.alloc(), &sums, &weights)?;
    one_list_of_kept();
    few_kept();
    Ok(())
}
