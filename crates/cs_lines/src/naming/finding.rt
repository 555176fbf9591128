// Which symbol has a name.

ghost use Rattle.std.specs.Prelude.{IfSome, IfNone};
ghost use Rattle.cs_lines.specs.Words.Names.{IsTokenNamed, IsNonterminalNamed, HasNoToken, HasNoNonterminal};

use crate::naming::literal::is_token_text;
use cs_bytes::same_bytes;
use cs_grammar::number_of;
use cs_yacc::YaccFile;

/// The first token with this name.
pub fn find_token(file: &YaccFile, name: &[u8]) -> Option<u16>
    ensures some { IfSome result (IsTokenNamed file.now name.now) }
    ensures none { IfNone result (HasNoToken file.now name.now) }
{
    let names = file.token_names();
    for place in 0..names.len() {
        if is_token_text(&names[place], name) {
            return Some(number_of(place));
        }
    }
    None
}

/// The first nonterminal with this name.
pub fn find_nonterminal(file: &YaccFile, name: &[u8]) -> Option<u16>
    ensures some { IfSome result (IsNonterminalNamed file.now name.now) }
    ensures none { IfNone result (HasNoNonterminal file.now name.now) }
{
    let names = file.nonterminal_names();
    for place in 0..names.len() {
        if same_bytes(names[place].bytes(), name) {
            return Some(number_of(place));
        }
    }
    None
}
