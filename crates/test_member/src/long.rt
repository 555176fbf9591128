// Lists of 2,000 tokens, and derivations that were worked out by hand.

ghost use Rattle.std.specs.Prelude.{◌≡◌, All, IfOk, length};
ghost use Rattle.cs_grammar.specs.Grammar.{IsNumberOf};

use crate::judged::is_judged;
use cs_grammar::Symbol;
use cs_member::{Membership, Recognizer, member};
use cs_samples::{Lines, grammar_of, grammar_of_sums, rules};
use std::alloc::{AllocError, Global};
use std::test::Fail;

const X: Symbol = Symbol::Token(1);

const S: Symbol = Symbol::Nonterminal(1);

const ROWS: [(&str, Lines); 3] = [
    ("s : x s | ;", &[(1, &[X, S]), (1, &[])]),
    ("s : s x | ;", &[(1, &[S, X]), (1, &[])]),
    ("s : s s | x ;", &[(1, &[S, S]), (1, &[X])]),
];

// The list of 2,000 times x.
fn longest(alloc: Global) -> Result<Vec<u16>, AllocError>
    ensures length { IfOk result (λ list. length list.items ≡ 2000) }
    ensures tokens { IfOk result (λ list. All (IsNumberOf 2) list.items) }
{
    let mut list = Vec::new(alloc);
    for _ in 0..2000usize {
        list.push(1u16)?;
    }
    Ok(list)
}

// By their rules: each has every list of x that is not empty.
#[test]
fn two_thousand_tokens(rt: HostRuntime) -> Result<(), Fail> {
    for (name, lines) in ROWS {
        let grammar = grammar_of(2, 1, rules(rt.alloc(), lines)?)?;
        let recognizer = Recognizer::new(rt.alloc(), &grammar)?;
        let list = longest(rt.alloc())?;
        let judged = is_judged(rt.alloc(), &grammar, &recognizer, &list, true)?;
        assert!(rt; judged, "{name}");
    }
    Ok(())
}

// A grammar without ambiguity has one derivation of a sentence.
#[test]
fn derivations_of_sums(rt: HostRuntime) -> Result<(), Fail> {
    let grammar = grammar_of_sums(rt.alloc())?;
    let rows: [(&[u16], &[u16]); 3] = [
        (&[1], &[2, 3]),
        (&[1, 2, 1], &[1, 2, 3, 3]),
        (&[3, 1, 2, 1, 4], &[2, 4, 1, 2, 3, 3]),
    ];
    for (list, want) in rows {
        let found = member(rt.alloc(), &grammar, list)?;
        let same = match found {
            Membership::Inside(derivation) => derivation.rules() == want,
            Membership::Outside => false,
        };
        assert!(rt; same, "{list:?}");
    }
    Ok(())
}

// s : a ;  a : b b | c ;  b : ;  c : ;  by hand: the least tree of the empty list goes by c.
#[test]
fn empty_trees_are_least(rt: HostRuntime) -> Result<(), Fail> {
    let [s, a, b, c] = [1, 2, 3, 4];
    let lines: [(u16, &[Symbol]); 5] = [
        (s, &[Symbol::Nonterminal(a)]),
        (a, &[Symbol::Nonterminal(b), Symbol::Nonterminal(b)]),
        (a, &[Symbol::Nonterminal(c)]),
        (b, &[]),
        (c, &[]),
    ];
    let grammar = grammar_of(1, 4, rules(rt.alloc(), &lines)?)?;
    let least = match member(rt.alloc(), &grammar, &[])? {
        Membership::Inside(derivation) => derivation.rules() == [1, 3, 5].as_slice(),
        Membership::Outside => false,
    };
    assert!(rt; least);
    Ok(())
}
