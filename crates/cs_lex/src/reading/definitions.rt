// The definitions of the file, all checked before the first rule.

ghost use Rattle.std.specs.Prelude.{◌≡◌, ◌≤◌, length, IfOk, IfErr, OnOk};
ghost use Rattle.cs_bytes.specs.Limits.{most_bytes};
ghost use Rattle.cs_lex.specs.Reading.Found.{RefusesSubstitute};
ghost use Rattle.cs_lex.specs.Reading.Patterns as spec;
ghost use Rattle.cs_lex.specs.Layout.Layout as layout;
ghost use Rattle.cs_lex.specs.Layout.Lies.{DefinitionsLie};
ghost use Rattle.cs_pattern.specs.Text.Checking.{AreAccepted};

use crate::layout::Definition;
use crate::reading::error::LexError;
use crate::reading::rules::bytes_of;
use cs_pattern::{CheckError, Checked, DefinitionError, Definitions};
use std::alloc::{AllocError, Global};

/// The definitions with their names and texts.
fn spelled(alloc: Global, bytes: &[u8], all: &[Definition]) -> Result<Definitions, AllocError>
    requires lie { DefinitionsLie (length bytes.now) (length bytes.now) all.now }
    requires short { length bytes.now ≤ most_bytes }
    requires new { layout.HaveNewNames bytes.now all.now }
    ensures { IfOk result (λ definitions. definitions ≡ spec.all_spelled bytes.now all.now) }
{
    let mut definitions = Definitions::new(alloc);
    for definition in all {
        let name = bytes_of(bytes, definition.name);
        let text = bytes_of(bytes, definition.substitute);
        match definitions.add(name, text) {
            Ok(()) => {}
            Err(DefinitionError::Memory) => return Err(AllocError),
            Err(DefinitionError::Twice) => unreachable!(),
        }
    }
    Ok(definitions)
}

/// The definitions, all of which are accepted.
pub(crate) fn checked_definitions(
    alloc: Global,
    bytes: &[u8],
    all: &[Definition],
) -> Result<Checked, LexError>
    requires lie { DefinitionsLie (length bytes.now) (length bytes.now) all.now }
    requires short { length bytes.now ≤ most_bytes }
    requires new { layout.HaveNewNames bytes.now all.now }
    ensures checked { IfOk result (λ checked. checked ≡ spec.all_spelled bytes.now all.now) }
    ensures accepted { OnOk result (AreAccepted (spec.all_spelled bytes.now all.now)) }
    ensures refused { IfErr result (RefusesSubstitute bytes.now all.now) }
{
    let definitions = spelled(alloc, bytes, all)?;
    match definitions.check() {
        Ok(checked) => Ok(checked),
        Err(CheckError::Fault { index, fault }) => Err(LexError::Pattern {
            at: all[index as usize].substitute.from as u32,
            fault,
        }),
        Err(CheckError::Memory) => Err(LexError::Memory),
    }
}
