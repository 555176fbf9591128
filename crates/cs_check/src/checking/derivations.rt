// Derivations of cases.

ghost use Rattle.std.specs.Prelude.{◌≡◌, ◌↔◌, ◌<◌, ◌≤◌, ◌^◌, ℕ, IfOk, length, All};
ghost use Rattle.cs_grammar.specs.Leftmost.{IsYield};
ghost use Rattle.cs_lines.specs.Lines.Numbers.{greatest};
ghost use Rattle.cs_lines.specs.Lines.Read.{numbers_in};
ghost use Rattle.cs_check.specs.Checking.Derivations.{AreRules, IsExpanded, TellsSize};

use crate::checking::sizes::size_of;
use cs_grammar::{Derivation, ExpandError, Grammar, expand, one_tree};
use cs_lines::Numbers;
use std::alloc::{AllocError, Global};

// Room for as many rule numbers is made at once.
const USUAL_RULES: usize = 32;

/// The rule numbers as a list; None where one of them is above all numbers of rules.
pub(crate) fn read_rules(
    alloc: Global,
    numbers: Numbers<'_>,
) -> Result<Option<Derivation>, AllocError>
    ensures { IfOk result (AreRules (numbers_in numbers.entry)) }
{
    let mut derivation = Derivation::with_capacity(alloc, USUAL_RULES)?;
    let mut rest = numbers;
    while let Some(number) = rest.next() {
        if number > 65_535 {
            return Ok(None);
        }
        derivation.push(number as u16)?;
    }
    Ok(Some(derivation))
}

/// The tokens that the rule numbers yield; None where they are no derivation.
pub(crate) fn expanded(
    alloc: Global,
    grammar: &Grammar,
    derivation: &Derivation,
) -> Result<Option<Vec<u16>>, AllocError>
    requires { length derivation.now < 2 ^ 32 }
    ensures { IfOk result (IsExpanded grammar.now derivation.now) }
{
    match expand(alloc, grammar, derivation) {
        Ok(tokens) => Ok(Some(tokens)),
        Err(ExpandError::Memory) => Err(AllocError),
        Err(_) => Ok(None),
    }
}

/// The size of the tree of a derivation with this yield, by the tokens' numbers.
pub(crate) fn tree_size(
    grammar: &Grammar,
    derivation: &Derivation,
    tokens: &[u16],
    numbers: &[u32],
) -> u64
    requires few { length derivation.now < 2 ^ 32 }
    requires yields { IsYield grammar.now derivation.now tokens.now }
    ensures size { TellsSize grammar.now derivation.now numbers.now result }
    ensures below { All (λ n. n ≤ 1000000) numbers.now → result < greatest }
{
    one_tree();
    let _well_formed = grammar.rules();
    size_of(derivation.rules().len(), tokens, numbers)
}
