// What rules begin with behind symbols that have empty trees.

ghost use Rattle.std.specs.Prelude.{◌+◌, ◌<◌, IfOk, OnOk, length};
ghost use Rattle.cs_grammar.specs.Grammar.{IsNumberOf};
ghost use Rattle.cs_member.specs.Tables.Tables.{AreEmpties};
ghost use Rattle.cs_member.specs.Tables.Fronts.{AreEntered, CanEnter, Enters};

use crate::tables::adding::{add_at, no_lists};
use crate::tables::empties::has_empty;
use crate::tables::item::{Item, over};
use cs_grammar::{Grammar, Symbol, number_of};
use std::alloc::{AllocError, Global};

// An item behind the first symbol of a rule that isn't taken by an empty tree.
#[derive(Clone, Copy, Debug, Drop)]
pub(crate) struct Front {
    pub(crate) left: u16,
    pub(crate) item: Item,
}

#[derive(Debug, Drop)]
pub(crate) struct Fronts {
    // By token, by nonterminal: where rules begin with it behind symbols that have empty trees.
    pub(crate) tokens: Vec<Vec<Front>>,
    pub(crate) nonterminals: Vec<Vec<Front>>,
    // By nonterminal: what its rules begin with behind symbols that have empty trees.
    pub(crate) corners: Vec<Vec<u16>>,
}

// Enters an item before which all symbols have empty trees.
fn enter_item(fronts: &mut Fronts, left: u16, item: Item, symbol: Symbol) -> Result<(), AllocError>
    requires small { item.place < 65535 }
    requires left { left < length fronts.old.corners.items }
    requires symbol { CanEnter symbol fronts.old }
    ensures { OnOk result (Enters left item symbol fronts.old fronts.new) }
{
    let front = Front {
        left,
        item: over(item),
    };
    match symbol {
        Symbol::Token(token) => add_at(&mut fronts.tokens, token, front)?,
        Symbol::Nonterminal(nonterminal) => {
            add_at(&mut fronts.nonterminals, nonterminal, front)?;
            add_at(&mut fronts.corners, left, nonterminal)?;
        }
    }
    Ok(())
}

// Enters the fronts of a rule.
fn enter_rule(
    fronts: &mut Fronts,
    grammar: &Grammar,
    empties: &[u16],
    rule: u16,
) -> Result<(), AllocError>
    requires rule { IsNumberOf (length grammar.now.rules) rule }
    requires empties { AreEmpties grammar.now empties.now }
    requires before { AreEntered grammar.now (λ x. x.rule < rule) fronts.old }
    ensures { OnOk result (AreEntered grammar.now (λ x. x.rule < rule + 1) fronts.new) }
{
    let _well_formed = grammar.rules();
    let left = grammar.rule(rule).left();
    let symbols = grammar.rule(rule).right();
    for place in 0..symbols.len() {
        let item = Item {
            rule,
            place: place as u16,
        };
        enter_item(fronts, left, item, symbols[place])?;
        if !has_empty(empties, symbols[place]) {
            return Ok(());
        }
    }
    Ok(())
}

// The fronts of a grammar's rules.
pub(crate) fn fronts_of(
    alloc: Global,
    grammar: &Grammar,
    empties: &[u16],
) -> Result<Fronts, AllocError>
    requires { AreEmpties grammar.now empties.now }
    ensures { IfOk result (AreEntered grammar.now (λ x. x.rule < length grammar.now.rules + 1)) }
{
    let _well_formed = grammar.rules();
    let mut fronts = Fronts {
        tokens: no_lists(alloc, grammar.tokens())?,
        nonterminals: no_lists(alloc, grammar.nonterminals())?,
        corners: no_lists(alloc, grammar.nonterminals())?,
    };
    for place in 0..grammar.rules().len() {
        enter_rule(&mut fronts, grammar, empties, number_of(place))?;
    }
    Ok(fronts)
}
