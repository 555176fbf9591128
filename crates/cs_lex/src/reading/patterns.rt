// The patterns of the rules.

ghost use Rattle.std.specs.Prelude.{◌≤◌, length, IfOk, IfErr, OnOk};
ghost use Rattle.cs_bytes.specs.Limits.{most_bytes};
ghost use Rattle.cs_lex.specs.Reading.Found.{ReadsRule, RefusesRule, HasCollected, RefusesSome, IsWithin, Keeps, RefusesPositions};
ghost use Rattle.cs_lex.specs.Layout.Lies.{RuleLies, RulesLie};

use crate::layout::Rule;
use crate::reading::MOST_POSITIONS;
use crate::reading::error::{LexError, LexLimit};
use crate::reading::rules::bytes_of;
use cs_pattern::{Checked, PatternError, read_pattern};
use cs_pattern_parts::{Pattern, leaf_count};
use std::alloc::{AllocError, Global};

/// The patterns of rules, and how many leaves they have together. Beyond the limit the patterns aren't kept.
#[derive(Drop)]
pub(crate) struct Collected {
    pub(crate) patterns: Vec<Pattern>,
    pub(crate) leaves: u32,
}

/// The pattern of the rule.
fn rule_pattern(
    alloc: Global,
    bytes: &[u8],
    rule: Rule,
    definitions: &Checked,
) -> Result<Pattern, LexError>
    requires lies { RuleLies (length bytes.now) rule }
    requires short { length bytes.now ≤ most_bytes }
    ensures read { IfOk result (ReadsRule definitions.now bytes.now rule) }
    ensures refused { IfErr result (RefusesRule definitions.now bytes.now rule) }
{
    match read_pattern(alloc, bytes_of(bytes, rule.pattern), definitions) {
        Ok(pattern) => Ok(pattern),
        Err(PatternError::Fault(fault)) => Err(LexError::Pattern {
            at: rule.pattern.from as u32,
            fault,
        }),
        Err(PatternError::Memory) => Err(LexError::Memory),
    }
}

/// Puts the pattern last, where so many leaves are within the limit.
fn keep(patterns: &mut Vec<Pattern>, pattern: Pattern, leaves: u32) -> Result<(), AllocError>
    ensures { OnOk result (Keeps leaves patterns.old patterns.new pattern) }
{
    if leaves <= MOST_POSITIONS {
        patterns.push(pattern)?;
    }
    Ok(())
}

/// The patterns of the rules, in order.
pub(crate) fn collect_patterns(
    alloc: Global,
    bytes: &[u8],
    rules: &[Rule],
    definitions: &Checked,
) -> Result<Collected, LexError>
    requires lie { RulesLie (length bytes.now) (length bytes.now) rules.now }
    requires short { length bytes.now ≤ most_bytes }
    requires few { length rules.now ≤ 2048 }
    ensures found { IfOk result (HasCollected definitions.now bytes.now rules.now) }
    ensures refused { IfErr result (RefusesSome definitions.now bytes.now rules.now) }
{
    let mut patterns = Vec::new(alloc);
    let mut leaves = 0;
    for rule in rules {
        let pattern = rule_pattern(alloc, bytes, *rule, definitions)?;
        leaves += leaf_count(alloc, &pattern)?;
        keep(&mut patterns, pattern, leaves)?;
    }
    Ok(Collected { patterns, leaves })
}

/// The patterns, where they have few enough leaves together.
pub(crate) fn within_limit(collected: Collected) -> Result<Vec<Pattern>, LexError>
    ensures within { IfOk result (IsWithin collected) }
    ensures refused { IfErr result (RefusesPositions collected) }
{
    if collected.leaves > MOST_POSITIONS {
        return Err(LexError::Limit {
            which: LexLimit::Positions,
            found: collected.leaves,
            most: MOST_POSITIONS,
        });
    }
    Ok(collected.patterns)
}
