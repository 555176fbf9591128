// What the lines behind the head have told.

ghost use Rattle.std.specs.Prelude.{◌≡◌, ◌<◌, ◌+◌, ◌^◌, OnOk, length};
ghost use Rattle.cs_lines.specs.Lines.Read.{names_in, numbers_in};

use crate::checking::cases::Cases;
use crate::checking::derivations::{expanded, read_rules, tree_size};
use crate::checking::goals::DueGoals;
use crate::checking::texts::are_tokens;
use crate::passing::ClaimFault;
use cs_grammar::one_tree;
use cs_lines::{Counts, Names, Numbers};
use cs_yacc::YaccFile;
use std::alloc::{AllocError, Global};

/// What the lines behind the head have told.
#[derive(Drop)]
pub(crate) struct Entries<'a, 'm> {
    pub(crate) cases: Cases<'a, 'm>,
    // Of each goal the number of its case, or 0.
    pub(crate) goal_cases: Vec<u64>,
    pub(crate) due: DueGoals<'a>,
    // How many bases there were, and the tokens of the last.
    pub(crate) bases: u64,
    pub(crate) base: Vec<u16>,
    // The size of the last case, and the tokens of the last case or negative.
    pub(crate) size: u64,
    pub(crate) tokens: Vec<u16>,
    pub(crate) counts: Counts,
}

/// One more.
pub(crate) fn more(count: u64) -> u64
    ensures { count < 2 ^ 32 → result ≡ count + 1 }
{
    count.saturating_add(1)
}

// Puts tokens in place of others.
fn copy_into(tokens: &[u16], told: &mut Vec<u16>) -> Result<(), AllocError>
    ensures { OnOk result (told.new.items ≡ tokens.now) }
{
    told.truncate(0);
    told.extend_from_slice(tokens)?;
    Ok(())
}

impl<'a, 'm> Entries<'a, 'm> {
    ghost use Rattle.cs_check.specs.Checking.Told.{TakesCase, TellsTokens, JudgesDerivation};

    /// Takes a case line, which may come here.
    pub(crate) fn take_case(&mut self, size: u64)
        ensures { TakesCase self.old size self.new }
    {
        self.counts.cases = more(self.counts.cases);
        self.size = size;
    }

    /// Whether the names are those of the tokens that were told last.
    pub(crate) fn tells(&self, file: &YaccFile, names: Names<'_>) -> bool
        ensures { TellsTokens file.now self.now (names_in names.entry) result }
    {
        one_tree();
        are_tokens(file, names, &self.tokens)
    }

    /// Takes a derive line, which may come here: what is wrong with it, if anything.
    pub(crate) fn take_derivation(
        &mut self,
        alloc: Global,
        numbers: &[u32],
        rules: Numbers<'m>,
    ) -> Result<Option<ClaimFault>, AllocError>
        requires { length (numbers_in rules) < 2 ^ 32 }
        ensures { JudgesDerivation self.old numbers.now (numbers_in rules.entry) self.new result }
    {
        one_tree();
        let grammar = self.cases.grammar();
        let _well_formed = grammar.rules();
        let Some(derivation) = read_rules(alloc, rules)? else {
            return Ok(Some(ClaimFault::Derive));
        };
        let Some(tokens) = expanded(alloc, grammar, &derivation)? else {
            return Ok(Some(ClaimFault::Derive));
        };
        let size = tree_size(grammar, &derivation, &tokens, numbers);
        if size != self.size {
            return Ok(Some(ClaimFault::Size));
        }
        copy_into(&tokens, &mut self.tokens)?;
        self.cases.push(size, rules, derivation, tokens)?;
        Ok(None)
    }
}
