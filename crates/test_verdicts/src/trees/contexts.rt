ghost use Rattle.std.specs.Prelude.{◌≡◌, length};
ghost use Rattle.cs_grammar.specs.Grammar.{IsNumberOf};
ghost use Rattle.cs_least.specs.Embed.Around.{HasLeastContext};
ghost use Rattle.cs_least.specs.Embed.Contexts.{AreContextsOf};

use crate::trees::prepared::{chain, embeds_of};
use cs_grammar::{Grammar, Symbol, Weights, number_of};
use cs_least::{Context, Contexts, Cost, Embeds};
use cs_samples::{Lines, SampleError, grammar_of, rules, weights_of};
use std::alloc::{AllocError, Global};
use std::process::Abort;
use std::test::Fail;

// What is to be told of a nonterminal's contexts.
#[derive(Clone, Copy)]
enum Want<'w> {
    Around(u32, &'w [u16], &'w [u16]),
    Nowhere,
    TooLarge,
}

use Want::{Around, Nowhere, TooLarge};

// Whether the context that is taken of the nonterminal's is this one. It is kept then.
fn is_taken(
    embeds: &Embeds,
    contexts: &mut Contexts,
    number: u16,
    context: &Context,
) -> Result<bool, AllocError>
    requires contexts { AreContextsOf embeds.now contexts.old }
    requires number { IsNumberOf embeds.now.grammar.nonterminals number }
    requires least { HasLeastContext embeds.now.weights embeds.now.grammar number }
    ensures { AreContextsOf embeds.now contexts.new }
{
    let around = contexts.take(embeds, number)?;
    let same = around.nonterminal == number
        && around.context.before.as_slice() == context.before.as_slice()
        && around.context.after.as_slice() == context.after.as_slice();
    contexts.keep(around);
    Ok(same)
}

// The same of one that isn't kept yet, and of one that is.
fn is_kept(embeds: &Embeds, number: u16, context: &Context) -> Result<bool, AllocError>
    requires number { IsNumberOf embeds.now.grammar.nonterminals number }
    requires least { HasLeastContext embeds.now.weights embeds.now.grammar number }
{
    let mut contexts = Contexts::new(embeds);
    contexts.make_room()?;
    Ok(
        is_taken(embeds, &mut contexts, number, context)?
            && is_taken(embeds, &mut contexts, number, context)?,
    )
}

// Whether what is told of the nonterminal is what is wanted.
fn is_told(embeds: &Embeds, number: u16, want: Want<'_>) -> Result<bool, AllocError>
    requires { IsNumberOf embeds.now.grammar.nonterminals number }
{
    match (embeds.embed(number), want) {
        (Cost::Least(size), Around(least, before, after)) => {
            let context = embeds.around(number)?;
            let is_placed = context.before.as_slice() == before
                && context.after.as_slice() == after;
            Ok(size == least && is_placed && is_kept(embeds, number, &context)?)
        }
        (Cost::Never, Nowhere) | (Cost::Large, TooLarge) => Ok(true),
        _ => Ok(false),
    }
}

// What is told of each nonterminal is what is wanted.
fn check_all(rt: &impl Abort, embeds: &Embeds, wants: &[Want<'_>]) -> Result<(), AllocError> {
    for (place, want) in wants.iter().enumerate() {
        assert!(rt; place < embeds.grammar().nonterminals() as usize);
        let number = number_of(place);
        assert!(rt; is_told(embeds, number, *want)?, "{number}");
    }
    Ok(())
}

// Rules, the numbers of four tokens, and what is told of each nonterminal, where 200 is the limit.
type Row = (Lines, [u32; 4], [Want<'static>; 4]);

fn check_by(
    rt: &impl Abort,
    alloc: Global,
    grammar: &Grammar,
    weights: &Weights,
    wants: &[Want<'_>],
) -> Result<(), AllocError>
    requires { length weights.now.numbers ≡ grammar.now.tokens }
{
    let embeds = embeds_of(alloc, grammar, weights)?;
    check_all(rt, &embeds, wants)
}

fn check(rt: &impl Abort, alloc: Global, row: Row) -> Result<(), SampleError> {
    let (lines, numbers, wants) = row;
    let grammar = grammar_of(4, 14, rules(alloc, lines)?)?;
    let weights = weights_of(alloc, &numbers, 200)?;
    Ok(check_by(rt, alloc, &grammar, &weights, &wants)?)
}

const A: Symbol = Symbol::Nonterminal(2);

const B: Symbol = Symbol::Nonterminal(3);

const C: Symbol = Symbol::Nonterminal(4);

const X: Symbol = Symbol::Token(1);

const Y: Symbol = Symbol::Token(2);

const Z: Symbol = Symbol::Token(3);

// s : b a | a b ;  a : 'x' | 'y' ;  b : 'z' ;
const BOTH: Lines = &[(1, &[B, A]), (1, &[A, B]), (2, &[X]), (2, &[Y]), (3, &[Z])];

// s : 'x' a b ;  a : 'y' ;  b : a c a ;  c : 'z' ;
const DEEP: Lines = &[(1, &[X, A, B]), (2, &[Y]), (3, &[A, C, A]), (4, &[Z])];

// s : a | 'x' | 'y' c ;  a : a b ;  b : b ;
const WITHOUT: Lines = &[(1, &[A]), (1, &[X]), (1, &[Y, C]), (2, &[A, B]), (3, &[B])];

const START: Want<'static> = Around(0, &[], &[]);

// Chosen and reckoned by hand, by sizes, then rules, then places.
const ROWS: [Row; 4] = [
    (
        BOTH,
        [1; 4],
        [
            START,
            Around(3, &[1, 5], &[]),
            Around(3, &[1], &[3]),
            Nowhere,
        ],
    ),
    // With 'x' 9 and 'y' 2 the second rule of a is taken beside the hole of b.
    (
        BOTH,
        [9, 2, 1, 1],
        [
            START,
            Around(3, &[1, 5], &[]),
            Around(4, &[1], &[4]),
            Nowhere,
        ],
    ),
    (
        DEEP,
        [1; 4],
        [
            START,
            Around(9, &[1], &[3, 2, 4, 2]),
            Around(4, &[1, 2], &[]),
            Around(9, &[1, 2, 3, 2], &[2]),
        ],
    ),
    // The context of c has 'y' beside the hole, which is 200, and the limit is 200.
    (
        WITHOUT,
        [1, 200, 1, 1],
        [START, Around(1, &[1], &[]), Nowhere, TooLarge],
    ),
];

#[test]
fn chosen_contexts_of_small_grammars(rt: HostRuntime) -> Result<(), Fail> {
    for row in ROWS {
        check(&rt, rt.alloc(), row)?;
    }
    Ok(())
}

// The numbers of all rules of the chain but the last.
fn outer_rules(alloc: Global) -> Result<Vec<u16>, AllocError> {
    let mut rules = Vec::new(alloc);
    for number in 1..1024 {
        rules.push(number)?;
    }
    Ok(rules)
}

fn check_chain(
    rt: &impl Abort,
    alloc: Global,
    grammar: &Grammar,
    outer: &[u16],
) -> Result<(), AllocError>
    requires tokens { grammar.now.tokens ≡ 1 }
    requires nonterminals { grammar.now.nonterminals ≡ 1024 }
{
    let weights = Weights::nodes(alloc, 1)?;
    let embeds = embeds_of(alloc, grammar, &weights)?;
    let want = Around(1023, outer, &[]);
    assert!(rt; is_told(&embeds, 1024, want)?);
    Ok(())
}

// n1 : n2 ;  down to  n1024 : 'x' ;  has 1,023 nodes around its last nonterminal.
#[test]
fn context_at_the_end_of_a_chain(rt: HostRuntime) -> Result<(), Fail> {
    let outer = outer_rules(rt.alloc())?;
    let grammar = grammar_of(1, 1024, chain(rt.alloc(), false)?)?;
    check_chain(&rt, rt.alloc(), &grammar, &outer)?;
    Ok(())
}
