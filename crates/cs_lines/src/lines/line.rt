// What a line says.

use crate::lines::names::Names;
use crate::lines::numbers::Numbers;
use crate::lines::quoted::Quoted;
use cs_choices::Weigh;

/// The sets of nonterminals.
#[derive(Clone, Copy, Debug, PartialEq, Eq)]
pub enum SetKind {
    Productive,
    Reachable,
    Empty,
}

/// What may stand first and last in what a nonterminal yields, and behind a mark.
#[derive(Clone, Copy, Debug, PartialEq, Eq)]
pub enum RowKind {
    First,
    Last,
    Next,
}

/// A goal. The greatest `u64` stands for all numbers above, too.
#[derive(Clone, Copy)]
pub enum GoalWords<'m> {
    Rule(u64),
    Context { outer: u64, place: u64, inner: u64 },
    Pair { left: &'m [u8], right: &'m [u8] },
}

/// A goal's verdict, with the numbers of its own case and of the first that meets it.
#[derive(Clone, Copy, Debug)]
pub enum Verdict {
    Feasible { size: u64, case: u64, first: u64 },
    Infeasible,
    Large,
}

/// An edit at a place, with the name of the token that it puts.
#[derive(Clone, Copy)]
pub enum EditWords<'m> {
    Delete(u64),
    Insert(u64, &'m [u8]),
    Replace(u64, &'m [u8]),
    Swap(u64),
}

/// What the end counts.
#[derive(Clone, Copy, Debug, PartialEq, Eq)]
pub struct Counts {
    pub goals: u64,
    pub feasible: u64,
    pub infeasible: u64,
    pub large: u64,
    pub negatives: u64,
    pub cases: u64,
}

/// A line. The greatest `u64` stands for all numbers above, too.
#[derive(Clone, Copy)]
pub enum Line<'m> {
    Opening,
    Weighing(Weigh),
    Token {
        number: u64,
        name: &'m [u8],
    },
    Rule {
        number: u64,
        left: &'m [u8],
        right: Names<'m>,
    },
    Lexeme {
        name: &'m [u8],
        text: Option<Quoted<'m>>,
    },
    Set {
        kind: SetKind,
        names: Names<'m>,
    },
    Row {
        kind: RowKind,
        name: &'m [u8],
        names: Names<'m>,
    },
    Case {
        number: u64,
        size: u64,
    },
    Derive(Numbers<'m>),
    Tokens(Names<'m>),
    Text(Quoted<'m>),
    /// That there is no text, for one of two reasons.
    NoText,
    Goal {
        number: u64,
        goal: GoalWords<'m>,
        verdict: Verdict,
    },
    Base {
        number: u64,
        goal: u64,
    },
    Negative {
        number: u64,
        base: u64,
        edit: EditWords<'m>,
        left: &'m [u8],
        right: &'m [u8],
        at: u64,
    },
    End(Counts),
}
