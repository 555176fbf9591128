// The check of a whole manifest.

ghost use Rattle.std.specs.Prelude.{◌≤◌, IfOk, length};
ghost use Rattle.cs_scanner.specs.Scan.Compared.{scanning};
ghost use Rattle.cs_check.specs.Checking.Running.{IsEndAnswer};
ghost use Rattle.cs_check.specs.Passing.Outcomes.{checked_by, HasClaims, IsOutcome};

use crate::checking::above::Above;
use crate::checking::part::Part;
use crate::passing::ClaimFault;
use cs_bytes::from_offset;
use cs_lines::line_size;
use cs_scanner::Scanner;
use cs_yacc::YaccFile;
use std::alloc::{AllocError, Global};

/// Whether all claims of a manifest hold.
#[derive(Clone, Copy, Debug, PartialEq, Eq)]
pub enum Outcome {
    /// They do; and it has so many goal lines and lines of negatives.
    Yes { goals: u64, negatives: u64 },
    /// This line, from 1, is the first that has a fault, and this is its lowest.
    No { line: u32, fault: ClaimFault },
}

// What is found where no line has a fault; the line behind the last has this number.
fn at_end(above: &Above<'_, '_>, line: u32) -> Outcome
    ensures { IsEndAnswer above.now line result }
{
    match above.part {
        Part::OfEnd => Outcome::Yes {
            goals: above.entries.counts.goals,
            negatives: above.entries.counts.negatives,
        },
        _ => Outcome::No {
            line,
            fault: ClaimFault::Form,
        },
    }
}

/// Whether all claims of a manifest hold, and else the first line with a fault and its lowest fault. What is missing at the end
/// counts as a line behind the last. The bytes are gone over once, and each line is looked at in place.
pub fn check(
    alloc: Global,
    yacc: &YaccFile,
    scanner: &Scanner<'_>,
    manifest: &[u8],
) -> Result<Outcome, AllocError>
    requires { length manifest.now ≤ 67108864 }
    ensures outcome { IfOk result
        (IsOutcome (checked_by yacc.now (scanning scanner.now)) manifest.now) }
    ensures claims { IfOk result
        (HasClaims (checked_by yacc.now (scanning scanner.now)) manifest.now) }
{
    let mut above = Above::new(alloc, yacc);
    let mut from = 0;
    let mut line = 1;
    while from < manifest.len() {
        let text = from_offset(manifest, from);
        let size = line_size(text);
        if let Some(fault) = above.take(alloc, yacc, scanner, &text[..size])? {
            return Ok(Outcome::No { line, fault });
        }
        from += size;
        line += 1;
    }
    Ok(at_end(&above, line))
}
