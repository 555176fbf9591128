use crate::trees::prepared::derivation_of;
use cs_grammar::{Derivation, ExpandError, Grammar, Weights, byte_weight, expand};
use cs_samples::{grammar_of_sums, sums};
use std::alloc::{AllocError, Global};
use std::process::Abort;
use std::test::Fail;

// What comes of a list of rules.
fn outcome(
    rt: &impl Abort,
    alloc: Global,
    grammar: &Grammar,
    code: &[u16],
) -> Result<Result<Vec<u16>, ExpandError>, AllocError> {
    let derivation = derivation_of(alloc, code)?;
    assert!(rt; derivation.rules().len() < 10);
    Ok(expand(alloc, grammar, &derivation))
}

fn is_wanted(got: &Result<Vec<u16>, ExpandError>, want: Result<&[u16], ExpandError>) -> bool {
    match (got, want) {
        (Ok(tokens), Ok(want)) => tokens.as_slice() == want,
        (Err(error), Err(want)) => *error == want,
        _ => false,
    }
}

const OUTCOMES: [(&[u16], Result<&[u16], ExpandError>); 6] = [
    (&[1, 2, 3, 3], Ok(&[1, 2, 1])),
    (&[2, 4, 2, 3], Ok(&[3, 1, 4])),
    (&[2, 3, 3], Err(ExpandError::TooMany { at: 2 })),
    (&[2, 4], Err(ExpandError::TooFew)),
    (&[2, 1], Err(ExpandError::WrongRule { at: 1 })),
    (&[0], Err(ExpandError::WrongRule { at: 0 })),
];

fn check_outcomes(rt: &impl Abort, alloc: Global, grammar: &Grammar) -> Result<(), AllocError> {
    for (code, want) in OUTCOMES {
        let got = outcome(rt, alloc, grammar, code)?;
        assert!(rt; is_wanted(&got, want), "{code:?}");
    }
    Ok(())
}

// Worked by hand from the grammar; numbers of rules begin with 1.
#[test]
fn derivations_of_sums(rt: HostRuntime) -> Result<(), Fail> {
    let grammar = grammar_of_sums(rt.alloc())?;
    assert!(rt; (grammar.tokens(), grammar.nonterminals(), grammar.start()) == (4, 2, 1));
    assert!(rt; grammar.rules().len() == 4);
    check_outcomes(&rt, rt.alloc(), &grammar)?;
    Ok(())
}

// By hand: a longer list is cut, a shorter one stays.
#[test]
fn derivations_are_cut_and_taken_apart(rt: HostRuntime) -> Result<(), Fail> {
    let rows: [(usize, &[u16]); 4] = [
        (0, &[]),
        (2, &[1, 2]),
        (4, &[1, 2, 3, 3]),
        (9, &[1, 2, 3, 3]),
    ];
    for (len, want) in rows {
        let mut derivation = derivation_of(rt.alloc(), &[1, 2, 3, 3])?;
        derivation.truncate(len);
        assert!(rt; derivation.into_rules().as_slice() == want, "{len}");
    }
    Ok(())
}

// By the limits of 512 tokens and 1,024 nonterminals.
#[test]
fn what_fits(rt: HostRuntime) -> Result<(), Fail> {
    let rules = sums(rt.alloc())?;
    let cases = [
        (4, 2, 1, true),
        (512, 1024, 2, true),
        (3, 2, 1, false),
        (4, 1, 1, false),
        (4, 2, 0, false),
        (4, 2, 3, false),
        (513, 2, 1, false),
        (4, 1025, 1, false),
    ];
    for (tokens, nonterminals, start, want) in cases {
        let fits = Grammar::fits(tokens, nonterminals, start, &rules);
        assert!(rt; fits == want, "{tokens} {nonterminals} {start}");
    }
    Ok(())
}

// By hand: behind no rule the one that is appended stands alone.
#[test]
fn a_rule_is_appended(rt: HostRuntime) -> Result<(), Fail> {
    let mut derivation = Derivation::new(rt.alloc());
    derivation.push(3)?;
    assert!(rt; derivation.rules() == [3].as_slice());
    Ok(())
}

// By definition: nodes are counted, and 10,000 is then the limit; other weights are as they were made.
#[test]
fn weights_of_tokens(rt: HostRuntime) -> Result<(), Fail> {
    let nodes = Weights::nodes(rt.alloc(), 2)?;
    assert!(rt; (nodes.limit(), nodes.number(2)) == (10_000, 1));
    let weights = Weights::new([129, 17].to_vec(rt.alloc())?, 100_000);
    assert!(rt; (weights.limit(), weights.number(1)) == (100_000, 129));
    Ok(())
}

// By the rule of 1 and 16 for each byte, up to 1,000,000, and 5,000 for no text.
#[test]
fn weights_of_texts(rt: HostRuntime) -> Result<(), Fail> {
    assert!(rt; (byte_weight(Some(0)), byte_weight(Some(8))) == (1, 129));
    let most = (byte_weight(Some(62_499)), byte_weight(Some(62_500)));
    assert!(rt; most == (999_985, 1_000_000));
    assert!(rt; byte_weight(None) == 5_000);
    Ok(())
}
