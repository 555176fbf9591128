use cs_closed::{Set, Sets};
use cs_goals::Goal;
use cs_grammar::Mark::{Begin, End, Token};
use cs_grammar::{Grammar, Symbol};
use cs_samples::{SampleError, grammar_of, rules};
use std::alloc::{AllocError, Global};
use std::process::Abort;
use std::test::Fail;

// Sets as lists of their members; the members of a table are pairs, a nonterminal or a token and then the token of the row.
#[derive(Clone, Copy)]
struct Lists {
    productive: &'static [u16],
    reachable: &'static [u16],
    empty: &'static [u16],
    first: &'static [(u16, u16)],
    last: &'static [(u16, u16)],
    begin: &'static [u16],
    next: &'static [(u16, u16)],
    end: &'static [u16],
    bare: bool,
}

fn set(alloc: Global, width: u16, members: &[u16]) -> Result<Set, AllocError> {
    let mut bits = Vec::new(alloc);
    for before in 0..width {
        bits.push(members.contains(&(before + 1)))?;
    }
    Ok(Set::new(bits))
}

fn row(alloc: Global, width: u16, token: u16, pairs: &[(u16, u16)]) -> Result<Set, AllocError> {
    let mut bits = Vec::new(alloc);
    for before in 0..width {
        bits.push(pairs.contains(&(before + 1, token)))?;
    }
    Ok(Set::new(bits))
}

fn table(
    alloc: Global,
    tokens: u16,
    width: u16,
    pairs: &[(u16, u16)],
) -> Result<Vec<Set>, AllocError> {
    let mut table = Vec::new(alloc);
    for before in 0..tokens {
        table.push(row(alloc, width, before + 1, pairs)?)?;
    }
    Ok(table)
}

fn sets(alloc: Global, tokens: u16, nonterminals: u16, lists: &Lists) -> Result<Sets, AllocError> {
    Ok(Sets {
        productive: set(alloc, nonterminals, lists.productive)?,
        reachable: set(alloc, nonterminals, lists.reachable)?,
        empty: set(alloc, nonterminals, lists.empty)?,
        first: table(alloc, tokens, nonterminals, lists.first)?,
        last: table(alloc, tokens, nonterminals, lists.last)?,
        begin: set(alloc, tokens, lists.begin)?,
        next: table(alloc, tokens, tokens, lists.next)?,
        end: set(alloc, tokens, lists.end)?,
        bare: lists.bare,
    })
}

fn are_closed(alloc: Global, grammar: &Grammar, lists: &Lists) -> Result<bool, AllocError> {
    let sets = sets(alloc, grammar.tokens(), grammar.nonterminals(), lists)?;
    Ok(sets.fits(grammar) && sets.are_closed(grammar))
}

// Whether the sets exclude each of the goals, or none of them.
fn exclude(
    alloc: Global,
    grammar: &Grammar,
    lists: &Lists,
    goals: &[Goal],
    all: bool,
) -> Result<bool, AllocError> {
    let sets = sets(alloc, grammar.tokens(), grammar.nonterminals(), lists)?;
    Ok(goals.iter().all(|goal| sets.excludes(grammar, goal) == all))
}

// `s : 'x'`
fn letter(alloc: Global) -> Result<Grammar, SampleError> {
    grammar_of(1, 1, rules(alloc, &[(1, &[Symbol::Token(1)])])?)
}

const LETTER: Lists = Lists {
    productive: &[1],
    reachable: &[1],
    empty: &[],
    first: &[(1, 1)],
    last: &[(1, 1)],
    begin: &[1],
    next: &[],
    end: &[1],
    bare: false,
};

const LETTER_MORE: Lists = Lists {
    next: &[(1, 1)],
    ..LETTER
};

const LETTER_FEWER: Lists = Lists {
    last: &[],
    ..LETTER
};

const MET: &[Goal] = &[
    Goal::Rule(1),
    Goal::Pair {
        left: Begin,
        right: Token(1),
    },
    Goal::Pair {
        left: Token(1),
        right: End,
    },
];

const DOUBLED: &[Goal] = &[Goal::Pair {
    left: Token(1),
    right: Token(1),
}];

#[test]
fn sets_of_one_letter(rt: HostRuntime) -> Result<(), Fail> {
    let grammar = letter(rt.alloc())?;
    assert!(rt; are_closed(rt.alloc(), &grammar, &LETTER)?);
    assert!(rt; exclude(rt.alloc(), &grammar, &LETTER, MET, false)?);
    assert!(rt; exclude(rt.alloc(), &grammar, &LETTER, DOUBLED, true)?);
    Ok(())
}

// A `next` line with a mark too many is closed and excludes less; a `last` line without its token isn't closed.
#[test]
fn sets_with_a_mark_too_many_or_too_few(rt: HostRuntime) -> Result<(), Fail> {
    let grammar = letter(rt.alloc())?;
    assert!(rt; are_closed(rt.alloc(), &grammar, &LETTER_MORE)?);
    assert!(rt; exclude(rt.alloc(), &grammar, &LETTER_MORE, DOUBLED, false)?);
    assert!(rt; !are_closed(rt.alloc(), &grammar, &LETTER_FEWER)?);
    Ok(())
}

// `s : a B a C | d C ;  a : | A ;  d : D d ;  u : A`, with A to D 1 to 4, s 1, a 2, d 3, u 4.
const EMPTIES_RULES: &[(u16, &[Symbol])] = &[
    (
        1,
        &[
            Symbol::Nonterminal(2),
            Symbol::Token(2),
            Symbol::Nonterminal(2),
            Symbol::Token(3),
        ],
    ),
    (1, &[Symbol::Nonterminal(3), Symbol::Token(3)]),
    (2, &[]),
    (2, &[Symbol::Token(1)]),
    (3, &[Symbol::Token(4), Symbol::Nonterminal(3)]),
    (4, &[Symbol::Token(1)]),
];

const EMPTIES: Lists = Lists {
    productive: &[1, 2, 4],
    reachable: &[1, 2],
    empty: &[2],
    first: &[(1, 1), (1, 2), (2, 1), (4, 1)],
    last: &[(1, 3), (2, 1), (4, 1)],
    begin: &[1, 2],
    next: &[(1, 2), (1, 3), (2, 1), (2, 3)],
    end: &[3],
    bare: false,
};

const EMPTIES_MET: &[Goal] = &[
    Goal::Rule(1),
    Goal::Rule(3),
    Goal::Rule(4),
    Goal::Context {
        outer: 1,
        place: 1,
        inner: 3,
    },
    Goal::Pair {
        left: Token(2),
        right: Token(3),
    },
];

const EMPTIES_UNMET: &[Goal] = &[
    Goal::Rule(2),
    Goal::Rule(5),
    Goal::Rule(6),
    Goal::Context {
        outer: 2,
        place: 1,
        inner: 5,
    },
    Goal::Context {
        outer: 5,
        place: 2,
        inner: 5,
    },
    Goal::Pair {
        left: Token(1),
        right: Token(1),
    },
    Goal::Pair {
        left: Token(1),
        right: End,
    },
    Goal::Pair {
        left: Begin,
        right: End,
    },
];

// Each lacks a member that is needed.
const FEWER: &[Lists] = &[
    Lists {
        productive: &[1, 2],
        ..EMPTIES
    },
    Lists {
        productive: &[1, 4],
        ..EMPTIES
    },
    Lists {
        reachable: &[1],
        ..EMPTIES
    },
    Lists {
        reachable: &[2],
        ..EMPTIES
    },
    Lists {
        empty: &[],
        ..EMPTIES
    },
    Lists {
        first: &[(1, 1), (2, 1), (4, 1)],
        ..EMPTIES
    },
    Lists {
        first: &[(1, 1), (1, 2), (4, 1)],
        ..EMPTIES
    },
    Lists {
        last: &[(2, 1), (4, 1)],
        ..EMPTIES
    },
    Lists {
        last: &[(1, 3), (2, 1)],
        ..EMPTIES
    },
    Lists {
        begin: &[1],
        ..EMPTIES
    },
    Lists {
        next: &[(1, 2), (1, 3), (2, 1)],
        ..EMPTIES
    },
    Lists {
        next: &[(1, 2), (2, 1), (2, 3)],
        ..EMPTIES
    },
    Lists {
        end: &[],
        ..EMPTIES
    },
];

fn empties(alloc: Global) -> Result<Grammar, SampleError> {
    grammar_of(4, 4, rules(alloc, EMPTIES_RULES)?)
}

#[test]
fn sets_of_a_grammar_with_empties(rt: HostRuntime) -> Result<(), Fail> {
    let grammar = empties(rt.alloc())?;
    assert!(rt; are_closed(rt.alloc(), &grammar, &EMPTIES)?);
    assert!(rt; exclude(rt.alloc(), &grammar, &EMPTIES, EMPTIES_MET, false)?);
    assert!(rt; exclude(rt.alloc(), &grammar, &EMPTIES, EMPTIES_UNMET, true)?);
    Ok(())
}

// Each member is needed.
#[test]
fn sets_without_a_member(rt: HostRuntime) -> Result<(), Fail> {
    let grammar = empties(rt.alloc())?;
    for lists in FEWER {
        assert!(rt; !are_closed(rt.alloc(), &grammar, lists)?);
    }
    Ok(())
}
