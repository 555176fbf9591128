// What the least trees cost whose yield is empty.

ghost use Rattle.std.specs.Prelude.{◌≡◌, IfOk, map};
ghost use Rattle.cs_pairs.specs.Kinds.Bare.{has_token, bare_rule};
ghost use Rattle.cs_pairs.specs.Kinds.Tables.{AreCosts};

use crate::kinds::kind::TreeKind;
use crate::kinds::kinds::any_row;
use crate::kinds::row::Row;
use cs_grammar::{Grammar, Rule, Symbol};
use cs_least::Costs;
use std::alloc::{AllocError, Global};

fn has_token(symbols: &[Symbol]) -> bool
    ensures { result ≡ has_token symbols.now }
{
    for symbol in symbols {
        if let Symbol::Token(_) = symbol {
            return true;
        }
    }
    false
}

// The rule in the grammar of empty yields.
fn bare_rule(alloc: Global, rule: &Rule) -> Result<Rule, AllocError>
    ensures { IfOk result (λ bare. bare ≡ bare_rule rule.now) }
{
    if has_token(rule.right()) {
        let own = vec![in alloc; Symbol::Nonterminal(rule.left())]?;
        return Ok(Rule::new(rule.left(), own));
    }
    Ok(Rule::new(rule.left(), rule.right().to_vec(alloc)?))
}

fn bare_rules(alloc: Global, grammar: &Grammar) -> Result<Vec<Rule>, AllocError>
    ensures { IfOk result (λ rules. rules.items ≡ map bare_rule grammar.now.rules) }
{
    let mut rules = Vec::new(alloc);
    for rule in grammar.rules() {
        rules.push(bare_rule(alloc, rule)?)?;
    }
    Ok(rules)
}

// What the least tree of each nonterminal costs whose yield is empty: that of any tree in the grammar of empty yields.
pub(crate) fn empty_row(alloc: Global, costs: &Costs) -> Result<Row, AllocError>
    ensures { IfOk result (AreCosts costs.now.weights costs.now.grammar TreeKind.Empty) }
{
    let grammar = costs.grammar();
    let weights = costs.weights();
    let _rules = grammar.rules();
    let rules = bare_rules(alloc, grammar)?;
    let bare = Grammar::new(
        grammar.tokens(),
        grammar.nonterminals(),
        grammar.start(),
        rules,
    );
    let bare_costs = Costs::new(alloc, &bare, weights)?;
    any_row(alloc, &bare_costs)
}
