// Rules from the texts of their patterns.

ghost use Rattle.std.specs.Prelude.{◌≤◌, IfOk};
ghost use Rattle.cs_pattern_parts.specs.Tree.Pattern.{leaves, regex};
ghost use Rattle.cs_pattern_parts.specs.Tree.Scannable.{IsScannable};

use cs_pattern::{Definitions, MOST_BYTES, Pattern, PatternError, read_pattern};
use std::alloc::Global;

// The pattern of a text without definitions.
pub(crate) fn rule(alloc: Global, text: &str) -> Result<Pattern, PatternError>
    ensures scannable { IfOk result (λ pattern. IsScannable (regex pattern)) }
    ensures leaves { IfOk result (λ pattern. leaves (regex pattern) ≤ 8192) }
{
    let Ok(none) = Definitions::new(alloc).check() else {
        return Err(PatternError::Memory);
    };
    let bytes = text.as_bytes();
    if bytes.len() > MOST_BYTES {
        return Err(PatternError::Memory);
    }
    read_pattern(alloc, bytes, &none)
}
