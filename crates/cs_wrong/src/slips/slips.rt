// The slips of a grammar.

ghost use Rattle.std.specs.Prelude.{◌≡◌, ◌≤◌, IfOk, OnOk, length, not};
ghost use Rattle.cs_wrong.specs.Slips.Put.{PutsIf, PutsRule};
ghost use Rattle.cs_wrong.specs.Slips.Slips.{doubles_of, drops_of, same_symbol, slips, swaps_of};

use crate::slips::slip::{Change, Slip};
use cs_choices::Slips;
use cs_grammar::{Grammar, Symbol, number_of};
use std::alloc::{AllocError, Global};

/// The slips of a grammar by the chosen kinds: the empty one first, then rule by rule those of each kind, in the order of
/// `Change`, by ascending places.
pub fn slips_of(alloc: Global, grammar: &Grammar, chosen: Slips) -> Result<Vec<Slip>, AllocError>
    ensures { IfOk result (λ list. list.items ≡ slips grammar.now chosen) }
{
    let mut list = Vec::new(alloc);
    list.push(Slip::Empty)?;
    for (at, rule) in grammar.rules().iter().enumerate() {
        put_slips(number_of(at), rule.right(), chosen, &mut list)?;
    }
    Ok(list)
}

// Puts the slips of a rule behind others.
fn put_slips(
    rule: u16,
    right: &[Symbol],
    chosen: Slips,
    list: &mut Vec<Slip>,
) -> Result<(), AllocError>
    requires { length right.now ≤ 128 }
    ensures { OnOk result (PutsRule rule chosen right.now list.old.items list.new.items) }
{
    let side = Side { rule, right };
    put_drops(&side, chosen.drops, list)?;
    put_doubles(&side, chosen.doubles, list)?;
    put_swaps(&side, chosen.swaps, list)
}

// The right side of the rule with this number.
#[derive(Clone, Copy)]
struct Side<'s> {
    rule: u16,
    right: &'s [Symbol],
}

fn put_drops(side: &Side<'_>, chosen: bool, list: &mut Vec<Slip>) -> Result<(), AllocError>
    requires { length side.now.right.now ≤ 128 }
    ensures { OnOk result (PutsIf side.now.rule chosen (drops_of side.now.right.now)
        list.old.items list.new.items) }
{
    if !chosen {
        return Ok(());
    }
    for place in 0..side.right.len() {
        let change = Change::Drop(number_of(place));
        list.push(Slip::Of {
            rule: side.rule,
            change,
        })?;
    }
    Ok(())
}

fn put_doubles(side: &Side<'_>, chosen: bool, list: &mut Vec<Slip>) -> Result<(), AllocError>
    requires { length side.now.right.now ≤ 128 }
    ensures { OnOk result (PutsIf side.now.rule chosen (doubles_of side.now.right.now)
        list.old.items list.new.items) }
{
    if !chosen {
        return Ok(());
    }
    for place in 0..side.right.len() {
        let change = Change::Double(number_of(place));
        list.push(Slip::Of {
            rule: side.rule,
            change,
        })?;
    }
    Ok(())
}

fn differ(left: Symbol, right: Symbol) -> bool
    ensures { result ≡ not (same_symbol left right) }
{
    match (left, right) {
        (Symbol::Token(a), Symbol::Token(b)) => a != b,
        (Symbol::Nonterminal(a), Symbol::Nonterminal(b)) => a != b,
        (Symbol::Token(_), Symbol::Nonterminal(_)) => true,
        (Symbol::Nonterminal(_), Symbol::Token(_)) => true,
    }
}

fn put_swaps(side: &Side<'_>, chosen: bool, list: &mut Vec<Slip>) -> Result<(), AllocError>
    requires { length side.now.right.now ≤ 128 }
    ensures { OnOk result (PutsIf side.now.rule chosen (swaps_of side.now.right.now)
        list.old.items list.new.items) }
{
    if !chosen {
        return Ok(());
    }
    for place in 1..side.right.len() {
        if differ(side.right[place - 1], side.right[place]) {
            let change = Change::Swap(place as u16);
            list.push(Slip::Of {
                rule: side.rule,
                change,
            })?;
        }
    }
    Ok(())
}
