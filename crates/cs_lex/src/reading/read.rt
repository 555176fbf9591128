// Reads a whole file.

ghost use Rattle.std.specs.Prelude.{◌≤◌, length, IfOk, IfErr};
ghost use Rattle.cs_bytes.specs.Limits.{most_bytes};
ghost use Rattle.cs_lex.specs.Reading.File.{HasTokensOf};
ghost use Rattle.cs_lex.specs.Reading.Reading.{IsLexFile, RefusesOrMemory};

use crate::layout::read_layout;
use crate::reading::definitions::checked_definitions;
use crate::reading::error::LexError;
use crate::reading::file::LexFile;
use crate::reading::kinds::rule_kinds;
use crate::reading::literals::literals;
use crate::reading::patterns::{collect_patterns, within_limit};
use crate::reading::rules::check_rules;
use cs_yacc::YaccFile;
use std::alloc::Global;

/// Reads a lex file of at most 1,048,576 bytes beside a yacc file: the definitions, the patterns and the kinds of its rules
/// (POSIX lex; the profile and its departures are in docs/FORMATS.md).
///
/// `Ok` comes exactly where the bytes are accepted, with the file that they mean. The first five errors are told by the first
/// place where layout stops; the others are tried in this order: no rules, `|` as the last action, too many rules, a
/// definition, a rule's pattern in file order, too many positions. `Memory` is want of memory.
pub fn read_lex(alloc: Global, bytes: &[u8], yacc: &YaccFile) -> Result<LexFile, LexError>
    requires { length bytes.now ≤ most_bytes }
    ensures read { IfOk result (IsLexFile bytes.now yacc.now) }
    ensures tokens { IfOk result (HasTokensOf (length yacc.now.token_names)) }
    ensures refused { IfErr result (RefusesOrMemory bytes.now) }
{
    let layout = read_layout(alloc, bytes)?;
    check_rules(bytes, &layout.rules)?;
    let definitions = checked_definitions(alloc, bytes, &layout.definitions)?;
    let collected = collect_patterns(alloc, bytes, &layout.rules, &definitions)?;
    let patterns = within_limit(collected)?;
    let kinds = rule_kinds(alloc, yacc, bytes, &layout.rules)?;
    let literals = literals(alloc, yacc)?;
    Ok(LexFile::new(patterns, kinds, literals))
}
