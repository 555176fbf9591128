// The tokens of literals.

ghost use Rattle.std.specs.Prelude.{IfOk};
ghost use Rattle.cs_lex.specs.Reading.Tokens.{AreLiterals, IsEntry};

use cs_yacc::YaccFile;
use std::alloc::{AllocError, Global};

/// The token of the byte's literal, or 0.
fn entry(yacc: &YaccFile, byte: u8) -> u16
    ensures { IsEntry yacc.now byte result }
{
    yacc.literal(byte).unwrap_or(0)
}

/// The tokens of the literals of all bytes, in order, or 0.
pub(crate) fn literals(alloc: Global, yacc: &YaccFile) -> Result<Vec<u16>, AllocError>
    ensures { IfOk result (λ literals. AreLiterals yacc.now literals.items) }
{
    let mut literals = Vec::new(alloc);
    for byte in 0..256usize {
        literals.push(entry(yacc, byte as u8))?;
    }
    Ok(literals)
}
