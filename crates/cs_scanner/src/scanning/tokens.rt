// The tokens of a text, or where its scan stops.

ghost use Rattle.std.specs.Prelude.{◌<◌, ◌^◌, IfOk, length};
ghost use Rattle.cs_scanner.specs.Scan.Compared.{scanning};
ghost use Rattle.cs_scanner.specs.Scan.Scanned.{IsScanOf};

use crate::scanning::comparing::{Next, advance};
use crate::scanning::scanner::Scanner;
use std::alloc::{AllocError, Global};

/// The tokens of a text, or the place where its scan stops.
#[derive(Debug, Drop)]
pub enum Scanned {
    Tokens(Vec<u16>),
    Stops { at: u32 },
}

/// The tokens that the scan of the text gives, where it covers the text; else the place where it stops: the offset where no
/// match gives tokens, in front of which matches cover the text (POSIX lex).
pub fn scan(alloc: Global, scanner: &Scanner<'_>, text: &[u8]) -> Result<Scanned, AllocError>
    requires few { length text.now < 2 ^ 32 }
    ensures { IfOk result (IsScanOf (scanning scanner.now) text.now) }
{
    let mut tokens = Vec::new(alloc);
    let mut rest = text;
    'matches: while !rest.is_empty() {
        let size = match advance(scanner, rest) {
            Next::Pass(size) => size,
            Next::Give(size, token) => {
                tokens.push(token)?;
                size
            }
            Next::Stop => {
                let at = (text.len() - rest.len()) as u32;
                return Ok(Scanned::Stops { at });
            }
        };
        rest = &rest[size..];
    }
    Ok(Scanned::Tokens(tokens))
}
