// How many chains a grammar has, without going through them.

ghost use Rattle.std.specs.Prelude.{◌≡◌, ◌≤◌, ◌^◌, ◌*◌, IfOk, length, All};
ghost use Rattle.cs_grammar.specs.Grammar.{IsSymbol};
ghost use Rattle.cs_chain.specs.Chains.Chains.{chains};
ghost use Rattle.cs_chain.specs.Chains.Counts.{weight, in_table, rules_with, links_with, AreAtMost, IsTable};

use cs_grammar::{Grammar, Symbol, place_of};
use std::alloc::{AllocError, Global};

/// How many chains a grammar has.
pub fn total(alloc: Global, grammar: &Grammar) -> Result<u64, AllocError>
    ensures { IfOk result (λ n. n ≡ length (chains grammar.now)) }
{
    let rules = count_rules(alloc, grammar)?;
    let links = count_links(alloc, grammar, &rules)?;
    Ok(add_up(grammar, &links))
}

// How many rules each nonterminal has.
fn count_rules(alloc: Global, grammar: &Grammar) -> Result<Vec<u64>, AllocError>
    ensures table { IfOk result
        (λ table. IsTable grammar.now (rules_with grammar.now) table.items) }
    ensures most { IfOk result (λ table. AreAtMost (2 ^ 13) table.items) }
{
    let mut table = vec![in alloc; 0; grammar.nonterminals() as usize]?;
    for rule in grammar.rules() {
        table[place_of(rule.left())] += 1;
    }
    Ok(table)
}

// How many context goals the rules of each nonterminal have.
fn count_links(alloc: Global, grammar: &Grammar, rules: &[u64]) -> Result<Vec<u64>, AllocError>
    requires table { IsTable grammar.now (rules_with grammar.now) rules.now }
    requires most { AreAtMost (2 ^ 13) rules.now }
    ensures table { IfOk result
        (λ table. IsTable grammar.now (links_with grammar.now) table.items) }
    ensures most { IfOk result (λ table. AreAtMost (2 ^ 33) table.items) }
{
    let mut table = vec![in alloc; 0; grammar.nonterminals() as usize]?;
    for rule in grammar.rules() {
        table[place_of(rule.left())] += weigh(rules, rule.right());
    }
    Ok(table)
}

// How many chains the rules have, by the context goals of each nonterminal.
fn add_up(grammar: &Grammar, links: &[u64]) -> u64
    requires table { IsTable grammar.now (links_with grammar.now) links.now }
    requires most { AreAtMost (2 ^ 33) links.now }
    ensures { result ≡ length (chains grammar.now) }
{
    let mut sum = 0;
    for rule in grammar.rules() {
        sum += weigh(links, rule.right());
    }
    sum
}

// The numbers of a right side's nonterminals, together.
fn weigh(table: &[u64], right: &[Symbol]) -> u64
    requires most { AreAtMost (2 ^ 33) table.now }
    requires short { length right.now ≤ 128 }
    requires symbols { All (IsSymbol 512 (length table.now)) right.now }
    ensures { result ≡ weight (in_table table.now) right.now }
{
    let mut sum = 0;
    for symbol in right {
        if let Symbol::Nonterminal(nonterminal) = *symbol {
            sum += table[place_of(nonterminal)];
        }
    }
    sum
}
