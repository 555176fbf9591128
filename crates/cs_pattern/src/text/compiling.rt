// What the texts of definitions become, or why they are refused.

ghost use Rattle.std.specs.Prelude.{◌≤◌, IfOk, IfErr, OnOk, length};
ghost use Rattle.cs_bytes.specs.Limits.{most_bytes};
ghost use Rattle.cs_pattern.specs.Text.Checked.{AreChecked};
ghost use Rattle.cs_pattern.specs.Text.Checking.{AreAccepted, RefusesDefinitions};
ghost use Rattle.cs_pattern.specs.Text.Classes.{HaveByteTexts};
ghost use Rattle.cs_pattern.specs.Text.Needed.{ArePlaces};
ghost use Rattle.cs_pattern.specs.Text.Stages.{AreNamed, AreRead};
ghost use Rattle.cs_pattern.specs.Operations.Definitions.{definitions_of, total_bytes};

use crate::operations::{Measure, Op, Texts};
use crate::text::checking::{
    check_limits, check_names, measure_all, operations, places_of, read_all,
};
use crate::text::fault::CheckError;
use crate::text::uses::order_of;
use cs_pattern_parts::Placed;
use std::alloc::Global;

/// What definitions become: the operations and the measure of each, an order in which each stands behind those that it uses, and
/// where each stands in it.
#[derive(Drop)]
pub(crate) struct Compiled {
    pub bodies: Vec<Vec<Op>>,
    pub measures: Vec<Measure>,
    pub order: Vec<usize>,
    pub places: Vec<usize>,
}

/// What the definitions become whose items these are. Else the lowest that reaches itself is named; else the first beyond a limit.
fn compile_items(
    alloc: Global,
    items: &[Vec<Placed>],
    texts: &Texts,
) -> Result<Compiled, CheckError>
    requires bytes { total_bytes (definitions_of texts.now.entries) ≤ most_bytes }
    requires texts { HaveByteTexts (definitions_of texts.now.entries) }
    requires read { AreRead (definitions_of texts.now.entries) items.now }
    requires named { AreNamed (definitions_of texts.now.entries) items.now }
    ensures checked { IfOk result (λ made. AreChecked (definitions_of texts.now.entries)
        made.bodies.items made.measures.items made.order.items) }
    ensures places { IfOk result (λ made.
        ArePlaces (length made.bodies.items) made.order.items made.places.items) }
    ensures accepted { OnOk result (AreAccepted (definitions_of texts.now.entries)) }
    ensures refused { IfErr result (RefusesDefinitions (definitions_of texts.now.entries)) }
{
    let order = order_of(alloc, items, texts)?;
    let bodies = operations(alloc, items, texts)?;
    let measures = measure_all(alloc, &bodies, &order)?;
    check_limits(&measures)?;
    let places = places_of(alloc, &order, texts)?;
    Ok(Compiled {
        bodies,
        measures,
        order,
        places,
    })
}

/// What the definitions with these names and texts become. Else the first whose reading stops is named; else the first that uses
/// an undefined name; else the lowest that reaches itself; else the first beyond a limit.
pub(crate) fn compile(alloc: Global, texts: &Texts) -> Result<Compiled, CheckError>
    requires bytes { total_bytes (definitions_of texts.now.entries) ≤ most_bytes }
    requires texts { HaveByteTexts (definitions_of texts.now.entries) }
    ensures checked { IfOk result (λ made. AreChecked (definitions_of texts.now.entries)
        made.bodies.items made.measures.items made.order.items) }
    ensures places { IfOk result (λ made.
        ArePlaces (length made.bodies.items) made.order.items made.places.items) }
    ensures accepted { OnOk result (AreAccepted (definitions_of texts.now.entries)) }
    ensures refused { IfErr result (RefusesDefinitions (definitions_of texts.now.entries)) }
{
    let items = read_all(alloc, texts)?;
    check_names(&items, texts)?;
    compile_items(alloc, &items, texts)
}
