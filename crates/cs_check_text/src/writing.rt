// The text of `check`, written.

ghost use Rattle.std.specs.Prelude.{◌≤◌, IfOk, OnErr, OnOk, length};
ghost use Rattle.cs_check_text.specs.Text.{IsTextOf, TookAnswer};
ghost use Rattle.cs_io.specs.Asked.{IsCalmForAll, MetFault, MetNone, Stopped, TookFront};
ghost use Rattle.cs_io.specs.declared.halt.Halt.TheVariants.{Failed};

use crate::lines::line_of;
use cs_check::{Outcome, check};
use cs_io::{Halt, Sink, write_all};
use cs_scanner::Scanner;
use cs_yacc::YaccFile;
use std::alloc::Global;

/// Writes whether a manifest holds what it claims, or else the first line that has a fault; and gives whether it does.
pub fn write_check<O: Sink>(
    alloc: Global,
    yacc: &YaccFile,
    scanner: &Scanner<'_>,
    manifest: &[u8],
    out: &mut O,
) -> Result<bool, Halt>
    requires short { length manifest.now ≤ 67108864 }
    ensures ok { IfOk result
        (TookAnswer O.Sink yacc.now scanner.now manifest.now out.old out.new) }
    ensures part { OnErr result
        (TookFront O.Sink (IsTextOf yacc.now scanner.now manifest.now) out.old out.new) }
    ensures no_fault { OnOk result (MetNone O.Sink out.old out.new) }
    ensures failed { Stopped Failed result → MetFault O.Sink out.old out.new }
    ensures room { IsCalmForAll O.Sink (IsTextOf yacc.now scanner.now manifest.now)
        out.old out.new }
{
    let outcome = check(alloc, yacc, scanner, manifest)?;
    let line = line_of(alloc, outcome)?;
    write_all(out, line.as_bytes())?;
    Ok(matches!(outcome, Outcome::Yes { .. }))
}
