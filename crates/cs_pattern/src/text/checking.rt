// The stages of checking definitions: their texts, their names, their operations and their measures.

ghost use Rattle.std.specs.Prelude.{◌≡◌, ◌<◌, ◌≤◌, ◌^◌, All, IfOk, IfErr, OnOk, length};
ghost use Rattle.cs_bytes.specs.Limits.{most_bytes};
ghost use Rattle.cs_pattern_parts.specs.Items.Views.{placed_all};
ghost use Rattle.indexmap.specs.IndexMap.{index_map_len};
ghost use Rattle.cs_pattern.specs.Operations.Definitions.{definitions_of, total_bytes};
ghost use Rattle.cs_pattern.specs.Text.Checked.{IsOrder};
ghost use Rattle.cs_pattern.specs.Text.Checking.{RefusesDefinitions};
ghost use Rattle.cs_pattern.specs.Text.Needed.{ArePlaces};
ghost use Rattle.cs_pattern.specs.Text.Stages.{StopsAs, AreRead, AreNamed, AreOperations, AreMeasuresOf, TellLimits, TellRefusal};
ghost use Rattle.cs_pattern.specs.Text.Table.{Reads};

use crate::operations::{Measure, Op, Texts, leaf, measure_of, postfix};
use crate::text::fault::{CheckError, PatternError, PatternFault};
use crate::text::limits::passed_limit;
use crate::text::reading::items;
use crate::text::uses::first_undefined;
use cs_pattern_parts::Placed;
use std::alloc::{AllocError, Global};

/// The fault of the definition of that index.
pub(crate) fn fault_at(index: usize, fault: PatternFault) -> CheckError
    requires { index < 2 ^ 32 }
    ensures { result ≡ CheckError.Fault index fault }
{
    CheckError::Fault {
        index: index as u32,
        fault,
    }
}

fn read_text(alloc: Global, index: usize, text: &[u8]) -> Result<Vec<Placed>, CheckError>
    requires text { length text.now ≤ most_bytes }
    requires index { index < 2 ^ 32 }
    ensures read { IfOk result (λ items. Reads text.now (placed_all items.items)) }
    ensures short { IfOk result (λ items. length items.items ≤ length text.now) }
    ensures stops { IfErr result (StopsAs index text.now) }
{
    match items(alloc, text) {
        Ok(items) => Ok(items),
        Err(PatternError::Fault(fault)) => Err(fault_at(index, fault)),
        Err(PatternError::Memory) => Err(CheckError::Memory),
    }
}

/// The items of each text.
pub(crate) fn read_all(alloc: Global, texts: &Texts) -> Result<Vec<Vec<Placed>>, CheckError>
    requires { total_bytes (definitions_of texts.now.entries) ≤ most_bytes }
    ensures read { IfOk result (λ all. AreRead (definitions_of texts.now.entries) all.items) }
    ensures refused { IfErr result (RefusesDefinitions (definitions_of texts.now.entries)) }
{
    let mut all = Vec::new(alloc);
    while let Some((_, text)) = texts.get_index(all.len()) {
        all.push(read_text(alloc, all.len(), text)?)?;
    }
    Ok(all)
}

pub(crate) fn check_names(all: &[Vec<Placed>], texts: &Texts) -> Result<(), CheckError>
    requires bytes { total_bytes (definitions_of texts.now.entries) ≤ most_bytes }
    requires read { AreRead (definitions_of texts.now.entries) all.now }
    ensures named { OnOk result (AreNamed (definitions_of texts.now.entries) all.now) }
    ensures refused { IfErr result (RefusesDefinitions (definitions_of texts.now.entries)) }
{
    for (index, items) in all.iter().enumerate() {
        if let Some(at) = first_undefined(items, texts) {
            return Err(fault_at(index, PatternFault::UndefinedName { at }));
        }
    }
    Ok(())
}

/// The operations of each definition.
pub(crate) fn operations(
    alloc: Global,
    all: &[Vec<Placed>],
    texts: &Texts,
) -> Result<Vec<Vec<Op>>, AllocError>
    requires { AreRead (definitions_of texts.now.entries) all.now }
    ensures { IfOk result (λ bodies.
        AreOperations (definitions_of texts.now.entries) bodies.items) }
{
    let mut bodies = Vec::new(alloc);
    for items in all {
        bodies.push(postfix(alloc, items, texts)?)?;
    }
    Ok(bodies)
}

/// The measure of each definition, by an order in which each stands behind those that it uses.
pub(crate) fn measure_all(
    alloc: Global,
    bodies: &[Vec<Op>],
    order: &[usize],
) -> Result<Vec<Measure>, AllocError>
    requires { All (λ index. index < length bodies.now) order.now }
    ensures { IfOk result (λ measures. AreMeasuresOf bodies.now order.now measures.items) }
{
    let mut measures = vec![in alloc; leaf(); bodies.len()]?;
    for index in order {
        let measure = measure_of(alloc, &bodies[*index], &measures)?;
        measures[*index] = measure;
    }
    Ok(measures)
}

/// Where each definition stands in the order.
pub(crate) fn places_of(
    alloc: Global,
    order: &[usize],
    texts: &Texts,
) -> Result<Vec<usize>, AllocError>
    requires { IsOrder (definitions_of texts.now.entries) order.now }
    ensures { IfOk result (λ places.
        ArePlaces (index_map_len texts.now) order.now places.items) }
{
    let mut places = vec![in alloc; 0; texts.len()]?;
    for (place, index) in order.iter().enumerate() {
        places[*index] = place;
    }
    Ok(places)
}

pub(crate) fn check_limits(measures: &[Measure]) -> Result<(), CheckError>
    requires { length measures.now < 2 ^ 32 }
    ensures within { OnOk result (TellLimits measures.now) }
    ensures refused { IfErr result (TellRefusal measures.now) }
{
    for (index, measure) in measures.iter().enumerate() {
        if let Some(fault) = passed_limit(*measure) {
            return Err(fault_at(index, fault));
        }
    }
    Ok(())
}
