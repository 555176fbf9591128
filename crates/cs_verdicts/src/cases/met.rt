// The goals that a derivation's tree meets, each of which gets a number where it has none.

ghost use Rattle.std.specs.Prelude.{◌≡◌, ◌≤◌, OnOk, length, reverse};
ghost use Rattle.cs_grammar.specs.Leftmost.{IsYield};
ghost use Rattle.cs_grammar.specs.Stack.{AreOnTop};
ghost use Rattle.cs_grammar.specs.Tree.{IsDerivationOf};
ghost use Rattle.cs_grammar.specs.declared.symbol.Mark.TheVariants.{Token};
ghost use Rattle.cs_verdicts.specs.Cases.Met.{AreMetAdded, AreInsideAdded, below, framed_pairs, goals_on, pairs_after, spots_from};
ghost use Rattle.cs_verdicts.specs.Cases.Table.{AreAllAdded, IsGrown};

use crate::cases::firsts::Firsts;
use cs_goals::Occurrence;
use cs_grammar::{Derivation, Grammar, Mark, Symbol, number_of};
use std::alloc::AllocError;

// Where an open nonterminal stands: the rule around it and its place there, counted from 1.
#[derive(Clone, Copy)]
pub(crate) struct Spot {
    pub(crate) outer: u16,
    pub(crate) place: u16,
}

// Adds the goals that the tree of a derivation meets. The tokens are its yield. The spots are memory alone.
pub(crate) fn add_met(
    grammar: &Grammar,
    derivation: &Derivation,
    tokens: &[u16],
    case: u64,
    spots: &mut Vec<Spot>,
    firsts: &mut Firsts,
) -> Result<(), AllocError>
    requires { IsYield grammar.now derivation.now tokens.now }
    ensures added { OnOk result
        (AreMetAdded grammar.now derivation.now case firsts.old firsts.new) }
    ensures grown { IsGrown firsts.old firsts.new }
{
    firsts.make_slots()?;
    add_inside(grammar, derivation, case, spots, firsts)?;
    add_pairs(tokens, case, firsts)
}

// Adds the pairs of a framed list.
fn add_pairs(tokens: &[u16], case: u64, firsts: &mut Firsts) -> Result<(), AllocError>
    ensures added { OnOk result
        (AreAllAdded firsts.old (framed_pairs tokens.now) case firsts.new) }
    ensures grown { IsGrown firsts.old firsts.new }
{
    match tokens.split_first() {
        None => firsts.add_pair(Mark::Begin, Mark::End, case),
        Some((first, rest)) => {
            firsts.add_pair(Mark::Begin, Mark::Token(*first), case)?;
            add_pairs_after(*first, rest, case, firsts)
        }
    }
}

// Adds the pairs of a token, those behind it and the end.
fn add_pairs_after(
    first: u16,
    tokens: &[u16],
    case: u64,
    firsts: &mut Firsts,
) -> Result<(), AllocError>
    ensures added { OnOk result
        (AreAllAdded firsts.old (pairs_after (Token first) tokens.now) case firsts.new) }
    ensures grown { IsGrown firsts.old firsts.new }
{
    let mut left = first;
    for right in tokens {
        firsts.add_pair(Mark::Token(left), Mark::Token(*right), case)?;
        left = *right;
    }
    firsts.add_pair(Mark::Token(left), Mark::End, case)
}

// Adds the rules of all nodes, and but for the root each with the rule of the node above and its place there. The stack has
// the open nonterminals, which stand in reverse.
fn add_inside(
    grammar: &Grammar,
    derivation: &Derivation,
    case: u64,
    spots: &mut Vec<Spot>,
    firsts: &mut Firsts,
) -> Result<(), AllocError>
    requires { IsDerivationOf grammar.now derivation.now }
    ensures added { OnOk result
        (AreInsideAdded grammar.now derivation.now case firsts.old firsts.new) }
    ensures grown { IsGrown firsts.old firsts.new }
{
    spots.clear();
    for number in derivation.rules() {
        add_node(*number, case, spots, firsts)?;
        open_children(*number, grammar.rule(*number).right(), spots)?;
    }
    Ok(())
}

// Takes the first open nonterminal, for which the rule was put in, and adds both. The root stands nowhere.
fn add_node(
    rule: u16,
    case: u64,
    spots: &mut Vec<Spot>,
    firsts: &mut Firsts,
) -> Result<(), AllocError>
    ensures spots { reverse spots.new.items ≡ below (reverse spots.old.items) }
    ensures added { OnOk result
        (AreAllAdded firsts.old (goals_on (reverse spots.old.items) rule) case firsts.new) }
    ensures grown { IsGrown firsts.old firsts.new }
{
    match spots.pop() {
        Some(Spot { outer, place }) => {
            let occurrence = Occurrence {
                outer,
                place,
                inner: rule,
            };
            firsts.add_context(occurrence, case)
        }
        None => firsts.add_rule(rule, case),
    }
}

// Puts the nonterminals of a rule's right side in front of the open ones.
fn open_children(outer: u16, right: &[Symbol], spots: &mut Vec<Spot>) -> Result<(), AllocError>
    requires { length right.now ≤ 128 }
    ensures { OnOk result
        (AreOnTop (spots_from outer 1 right.now) spots.old.items spots.new.items) }
{
    for at in (0..right.len()).rev() {
        if let Symbol::Nonterminal(_) = right[at] {
            let place = number_of(at);
            spots.push(Spot { outer, place })?;
        }
    }
    Ok(())
}
