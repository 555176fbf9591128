// Small grammars over the tokens x, which is 1, and y, which is 2. Their sentences of at most five tokens were listed by hand.

ghost use Rattle.std.specs.Prelude.{◌≡◌, ◌≤◌, ◌<◌, All, IfOk, length};
ghost use Rattle.cs_grammar.specs.Grammar.{IsNumberOf};

use crate::judged::is_judged;
use cs_grammar::{Grammar, Symbol};
use cs_member::Recognizer;
use cs_samples::{Lines, grammar_of, rules};
use std::alloc::{AllocError, Global};
use std::test::Fail;

const X: Symbol = Symbol::Token(1);

const Y: Symbol = Symbol::Token(2);

const S: Symbol = Symbol::Nonterminal(1);

const A: Symbol = Symbol::Nonterminal(2);

const B: Symbol = Symbol::Nonterminal(3);

type Row = (&'static str, Lines, &'static [&'static [u16]]);

const ROWS: [Row; 10] = [
    (
        "cyclic: s : s | s s | | x ;",
        &[(1, &[S]), (1, &[S, S]), (1, &[]), (1, &[X])],
        &[
            &[],
            &[1],
            &[1, 1],
            &[1, 1, 1],
            &[1, 1, 1, 1],
            &[1, 1, 1, 1, 1],
        ],
    ),
    (
        "a cycle of two: s : a | x ;  a : s | y s ;",
        &[(1, &[A]), (1, &[X]), (2, &[S]), (2, &[Y, S])],
        &[&[1], &[2, 1], &[2, 2, 1], &[2, 2, 2, 1], &[2, 2, 2, 2, 1]],
    ),
    (
        "nullable: s : a b a ;  a : | x ;  b : | y ;",
        &[(1, &[A, B, A]), (2, &[]), (2, &[X]), (3, &[]), (3, &[Y])],
        &[&[], &[1], &[2], &[1, 1], &[1, 2], &[2, 1], &[1, 2, 1]],
    ),
    (
        "left recursion behind an empty tree: s : a s x | a x ;  a : | a a ;",
        &[(1, &[A, S, X]), (1, &[A, X]), (2, &[]), (2, &[A, A])],
        &[&[1], &[1, 1], &[1, 1, 1], &[1, 1, 1, 1], &[1, 1, 1, 1, 1]],
    ),
    (
        "useless: s : x a | y ;  a : a x ;  b : s ;",
        &[(1, &[X, A]), (1, &[Y]), (2, &[A, X]), (3, &[S])],
        &[&[2]],
    ),
    (
        "ambiguous: s : s s | x s y | x y ;",
        &[(1, &[S, S]), (1, &[X, S, Y]), (1, &[X, Y])],
        &[&[1, 2], &[1, 2, 1, 2], &[1, 1, 2, 2]],
    ),
    (
        "palindromes: s : x s x | y s y | ;",
        &[(1, &[X, S, X]), (1, &[Y, S, Y]), (1, &[])],
        &[
            &[],
            &[1, 1],
            &[2, 2],
            &[1, 1, 1, 1],
            &[1, 2, 2, 1],
            &[2, 1, 1, 2],
            &[2, 2, 2, 2],
        ],
    ),
    ("no sentence: s : s x ;", &[(1, &[S, X])], &[]),
    (
        "the empty list alone: s : a a ;  a : ;",
        &[(1, &[A, A]), (2, &[])],
        &[&[]],
    ),
    (
        "a nonterminal twice: s : a y a ;  a : x | ;",
        &[(1, &[A, Y, A]), (2, &[X]), (2, &[])],
        &[&[2], &[1, 2], &[2, 1], &[1, 2, 1]],
    ),
];

// The list of so many tokens that say the number in base 2.
fn list_of(alloc: Global, many: usize, number: u16) -> Result<Vec<u16>, AllocError>
    ensures length { IfOk result (λ list. length list.items ≡ many) }
    ensures tokens { IfOk result (λ list. All (IsNumberOf 2) list.items) }
{
    let mut list = Vec::new(alloc);
    let mut rest = number;
    for _ in 0..many {
        list.push(1 + rest % 2)?;
        rest /= 2;
    }
    Ok(list)
}

fn is_among(list: &[u16], sentences: &[&[u16]]) -> bool {
    sentences.iter().any(|sentence| *sentence == list)
}

// The first list of so many tokens of which something else is said.
fn wrong_list(
    alloc: Global,
    grammar: &Grammar,
    recognizer: &Recognizer<'_>,
    many: usize,
    sentences: &[&[u16]],
) -> Result<Option<Vec<u16>>, AllocError>
    requires many { many ≤ 5 }
    requires tokens { recognizer.now.tokens ≡ 2 }
{
    for number in 0..1u16 << many {
        let list = list_of(alloc, many, number)?;
        let inside = is_among(&list, sentences);
        if !is_judged(alloc, grammar, recognizer, &list, inside)? {
            return Ok(Some(list));
        }
    }
    Ok(None)
}

#[test]
fn all_lists_of_at_most_five_tokens(rt: HostRuntime) -> Result<(), Fail> {
    for (name, lines, sentences) in ROWS {
        let grammar = grammar_of(2, 3, rules(rt.alloc(), lines)?)?;
        let recognizer = Recognizer::new(rt.alloc(), &grammar)?;
        for many in 0..6 {
            let wrong = wrong_list(rt.alloc(), &grammar, &recognizer, many, sentences)?;
            assert!(rt; wrong.is_none(), "{name}: {wrong:?}");
        }
    }
    Ok(())
}
