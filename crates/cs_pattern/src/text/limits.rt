// The limits of a pattern.

ghost use Rattle.std.specs.Prelude.{◌≡◌};
ghost use Rattle.cs_pattern.specs.Text.Limits as spec;

use crate::operations::Measure;
use crate::text::fault::PatternFault;
use crate::text::{MOST_DEPTH, MOST_LEAVES};

/// The limit that a pattern of this measure passes, if it passes one.
pub(crate) fn passed_limit(measure: Measure) -> Option<PatternFault>
    ensures { result ≡ spec.passed_limit measure.depth measure.leaves }
{
    if measure.depth > MOST_DEPTH {
        return Some(PatternFault::TooDeep {
            found: measure.depth,
            most: MOST_DEPTH,
        });
    }
    if measure.leaves > MOST_LEAVES {
        return Some(PatternFault::TooManyPositions { most: MOST_LEAVES });
    }
    None
}
