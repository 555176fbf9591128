// Which line of the head is due at which place.

ghost use Rattle.std.specs.Prelude.{◌≡◌, length, slice_get};
ghost use Rattle.std.specs.Option.{option_map};
ghost use Rattle.cs_check.specs.Passing.Head.{tables, whole_head};
ghost use Rattle.cs_check.specs.Passing.Dues.{due_told, tokens_on, rules_on, lexemes_on, claims_on};
ghost use Rattle.cs_check.specs.Passing.Dues.{first_on, last_on, next_on};

use cs_grammar::{Grammar, number_of};
use cs_lines::{RowKind, SetKind};

/// A line of the head: of a token, a rule or a nonterminal with this number. A `next` line is of the token with this
/// number, or of the begin mark where it is 0.
#[derive(Clone, Copy, Debug, PartialEq, Eq)]
pub(crate) enum Due {
    Opening,
    Weighing,
    Token(u16),
    Rule(u16),
    Lexeme(u16),
    Set(SetKind),
    Row(RowKind, u16),
}

/// How many lines there are up to the lexemes.
pub(crate) fn tables_size(grammar: &Grammar) -> usize
    ensures { result ≡ length (tables grammar.now) }
{
    2 + 2 * grammar.tokens() as usize + grammar.rules().len()
}

/// How many there are with the closed lines.
pub(crate) fn whole_size(grammar: &Grammar) -> usize
    ensures { result ≡ length (whole_head grammar.now) }
{
    let tokens = grammar.tokens() as usize;
    let nonterminals = grammar.nonterminals() as usize;
    let rules = grammar.rules().len();
    2 + 2 * tokens + rules + 4 + 2 * nonterminals + tokens
}

/// The line that is due behind so many.
pub(crate) fn due_at(grammar: &Grammar, place: usize) -> Option<Due>
    ensures { option_map due_told result ≡ slice_get (whole_head grammar.now) place }
{
    match place {
        0 => Some(Due::Opening),
        1 => Some(Due::Weighing),
        _ => token_at(grammar, place - 2),
    }
}

// Of the lines of tokens and those below, that behind so many.
fn token_at(grammar: &Grammar, place: usize) -> Option<Due>
    ensures { option_map due_told result ≡ slice_get (tokens_on grammar.now) place }
{
    let tokens = grammar.tokens() as usize;
    if place < tokens {
        Some(Due::Token(number_of(place)))
    } else {
        rule_at(grammar, place - tokens)
    }
}

// Of the lines of rules and those below.
fn rule_at(grammar: &Grammar, place: usize) -> Option<Due>
    ensures { option_map due_told result ≡ slice_get (rules_on grammar.now) place }
{
    let rules = grammar.rules().len();
    if place < rules {
        Some(Due::Rule(number_of(place)))
    } else {
        lexeme_at(grammar, place - rules)
    }
}

// Of the lexeme lines and those below.
fn lexeme_at(grammar: &Grammar, place: usize) -> Option<Due>
    ensures { option_map due_told result ≡ slice_get (lexemes_on grammar.now) place }
{
    let tokens = grammar.tokens() as usize;
    if place < tokens {
        Some(Due::Lexeme(number_of(place)))
    } else {
        claim_at(grammar, place - tokens)
    }
}

// Of the closed lines.
fn claim_at(grammar: &Grammar, place: usize) -> Option<Due>
    ensures { option_map due_told result ≡ slice_get (claims_on grammar.now) place }
{
    match place {
        0 => Some(Due::Set(SetKind::Productive)),
        1 => Some(Due::Set(SetKind::Reachable)),
        2 => Some(Due::Set(SetKind::Empty)),
        _ => first_at(grammar, place - 3),
    }
}

// Of the lines of first tokens and those below.
fn first_at(grammar: &Grammar, place: usize) -> Option<Due>
    ensures { option_map due_told result ≡ slice_get (first_on grammar.now) place }
{
    let nonterminals = grammar.nonterminals() as usize;
    if place < nonterminals {
        Some(Due::Row(RowKind::First, number_of(place)))
    } else {
        last_at(grammar, place - nonterminals)
    }
}

// Of the lines of last tokens and those below.
fn last_at(grammar: &Grammar, place: usize) -> Option<Due>
    ensures { option_map due_told result ≡ slice_get (last_on grammar.now) place }
{
    let nonterminals = grammar.nonterminals() as usize;
    if place < nonterminals {
        Some(Due::Row(RowKind::Last, number_of(place)))
    } else {
        next_at(grammar, place - nonterminals)
    }
}

// Of the lines of what stands behind a mark.
fn next_at(grammar: &Grammar, place: usize) -> Option<Due>
    ensures { option_map due_told result ≡ slice_get (next_on grammar.now) place }
{
    if place <= grammar.tokens() as usize {
        Some(Due::Row(RowKind::Next, place as u16))
    } else {
        None
    }
}
