// Reading a pattern.

ghost use Rattle.std.specs.Prelude.{◌≤◌, length, IfOk, IfErr};
ghost use Rattle.cs_bytes.specs.Limits.{most_bytes};
ghost use Rattle.cs_pattern_parts.specs.Tree.Pattern.{regex, leaves, nesting};
ghost use Rattle.cs_pattern_parts.specs.Tree.Scannable.{IsScannable, MatchesBytesAlone, MatchesSomeText};
ghost use Rattle.cs_pattern.specs.Text.Answers.{IsPatternOf, RefusesText};
ghost use Rattle.cs_pattern.specs.Text.ReadView.{AreNamedOfSome, GivePattern, GiveRefusal, IsPutIn, IsWithinDepth};

use crate::operations::{Op, build, measure_of, postfix};
use crate::text::definitions::Checked;
use crate::text::fault::{PatternError, PatternFault};
use crate::text::limits::passed_limit;
use crate::text::needed::{known, needed};
use crate::text::reading::items;
use crate::text::uses::first_undefined;
use cs_pattern_parts::{Pattern, Placed};
use std::alloc::{AllocError, Global};

/// The pattern of the operations, with the definitions put in.
fn put_in(alloc: Global, ops: &[Op], definitions: &Checked) -> Result<Pattern, AllocError>
    requires { IsWithinDepth definitions.now ops.now }
    ensures { IfOk result (λ pattern. IsPutIn definitions.now ops.now (regex pattern)) }
{
    let needed = needed(
        alloc,
        ops,
        &definitions.bodies,
        &definitions.order,
        &definitions.places,
    )?;
    let known = known(alloc, &needed, &definitions.bodies)?;
    let pattern = build(alloc, ops, &known)?;
    Ok(pattern)
}

/// The pattern of a text that is read into these items, each name of which is defined.
fn pattern_of_items(
    alloc: Global,
    items: &[Placed],
    definitions: &Checked,
) -> Result<Pattern, PatternError>
    requires { AreNamedOfSome definitions.now items.now }
    ensures read { IfOk result (λ pattern. GivePattern definitions.now items.now (regex pattern)) }
    ensures refused { IfErr result (GiveRefusal definitions.now items.now) }
{
    let ops = postfix(alloc, items, &definitions.texts)?;
    let measure = measure_of(alloc, &ops, &definitions.measures)?;
    match passed_limit(measure) {
        Some(fault) => Err(PatternError::Fault(fault)),
        None => {
            let pattern = put_in(alloc, &ops, definitions)?;
            Ok(pattern)
        }
    }
}

/// The pattern of a text, with the definitions put in for their names. An automaton can be made of it: no class or either is
/// empty, at most 403 joins, eithers and manies stand around any part (two for each of 200 groups and repetitions, and three),
/// and it has at most 8,192 leaves. A fault says why the text has none.
pub fn read_pattern(
    alloc: Global,
    bytes: &[u8],
    definitions: &Checked,
) -> Result<Pattern, PatternError>
    requires { length bytes.now ≤ most_bytes }
    ensures read { IfOk result (λ pattern. IsPatternOf definitions.now bytes.now (regex pattern)) }
    ensures scannable { IfOk result (λ pattern. IsScannable (regex pattern)) }
    ensures bytes { IfOk result (λ pattern. MatchesBytesAlone (regex pattern)) }
    ensures matches { IfOk result (λ pattern. MatchesSomeText (regex pattern)) }
    ensures nested { IfOk result (λ pattern. nesting (regex pattern) ≤ 403) }
    ensures leaves { IfOk result (λ pattern. leaves (regex pattern) ≤ 8192) }
    ensures refused { IfErr result (RefusesText bytes.now definitions.now) }
{
    let items = items(alloc, bytes)?;
    match first_undefined(&items, &definitions.texts) {
        Some(at) => Err(PatternError::Fault(PatternFault::UndefinedName { at })),
        None => pattern_of_items(alloc, &items, definitions),
    }
}
