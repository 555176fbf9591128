use crate::filling::OpenLines;
use crate::manifest::SharedVerdict;
use crate::output::{Numeral, Piece};
use cs_goals::Goal;
use cs_grammar::Derivation;
use cs_mutate::Negative;
use cs_texts::{Rendered, RenderedParts};
use cs_verdicts::Verdict;

/// What stands in a manifest between its head and its end. Numbers count from 1.
#[derive(Clone, Copy)]
pub enum Entry<'a> {
    /// In the first format a goal with its verdict; the tokens of its derivation, where it has one; and in the form of `suite`
    /// what came of their rendering.
    Goal {
        number: u64,
        goal: &'a Goal,
        verdict: &'a Verdict,
        tokens: &'a [u16],
        rendered: Option<&'a Rendered>,
    },
    /// In the second format a case: a derivation with its size and its tokens, and what came of their rendering.
    Case {
        number: u64,
        size: u32,
        derivation: &'a Derivation,
        tokens: &'a [u16],
        rendered: &'a Rendered,
    },
    /// In the second format a goal, behind the cases that it names.
    Shared {
        number: u64,
        goal: &'a Goal,
        verdict: SharedVerdict,
    },
    /// A base, and the number of the first goal whose tokens it has. Its negatives follow.
    Base {
        number: u32,
        goal: u64,
    },
    /// A negative of the base above.
    Negative(NumberedNegative<'a>),
    /// The same, told by lines that lack what it alone has.
    Filled(FilledNegative<'a>),
}

/// A negative with its number and that of its base: the edit with its poisoned pair, the edited list, and what came of the
/// rendering of that list.
#[derive(Clone, Copy)]
pub struct NumberedNegative<'a> {
    pub number: u64,
    pub base: u32,
    pub negative: Negative,
    pub tokens: &'a [u16],
    pub rendered: RenderedParts<'a>,
}

/// A negative by the lines of those that differ in the token of their edit alone: its number, the name of that token behind a
/// space, and the token's lexeme as it stands between quotes.
#[derive(Clone, Copy)]
pub struct FilledNegative<'a> {
    pub number: &'a Numeral,
    pub lines: &'a OpenLines,
    pub name: &'a Piece,
    pub lexeme: &'a Piece,
}
