// Whether a text scans to tokens.

ghost use Rattle.std.specs.Prelude.{◌<◌, ◌^◌, ◌↔◌, IsTrue, IfOk, length};
ghost use Rattle.cs_scanner.specs.Scan.Compared.{scanning};
ghost use Rattle.cs_scanner.specs.Scan.Scan.{Scans};

use cs_scanner::{Agreement, Scanned, Scanner, agrees, one_scan, scan, stop_or_whole};
use std::alloc::{AllocError, Global};

// The most tokens of a list that is compared with a text without memory.
const MOST_COMPARED: usize = 1_000_001;

// Whether it scans to a list of any length.
fn scans_to_long(
    alloc: Global,
    scanner: &Scanner<'_>,
    text: &[u8],
    tokens: &[u16],
) -> Result<bool, AllocError>
    requires { length text.now < 2 ^ 32 }
    ensures { IfOk result (λ is. IsTrue is ↔ Scans (scanning scanner.now) text.now tokens.now) }
{
    one_scan();
    stop_or_whole();
    match scan(alloc, scanner, text)? {
        Scanned::Tokens(scanned) => Ok(scanned.as_slice() == tokens),
        Scanned::Stops { .. } => Ok(false),
    }
}

/// Whether the text scans to the tokens. A list of at most a million and one is compared without memory.
pub(crate) fn scans_to(
    alloc: Global,
    scanner: &Scanner<'_>,
    text: &[u8],
    tokens: &[u16],
) -> Result<bool, AllocError>
    requires { length text.now < 2 ^ 32 }
    ensures { IfOk result (λ is. IsTrue is ↔ Scans (scanning scanner.now) text.now tokens.now) }
{
    if tokens.len() <= MOST_COMPARED {
        return Ok(agrees(scanner, text, tokens) == Agreement::Whole);
    }
    scans_to_long(alloc, scanner, text, tokens)
}
