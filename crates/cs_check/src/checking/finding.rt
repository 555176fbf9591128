// Which symbol has a name, where a line has many names.

ghost use Rattle.std.specs.Prelude.{◌≡◌, ◌↔◌, IsTrue, IfSome, IfNone, Some, slice_get};
ghost use Rattle.cs_bytes.specs.Names.{quote};
ghost use Rattle.cs_lines.specs.Words.Names.{IsTokenNamed, IsNonterminalNamed, HasNoToken, HasNoNonterminal};

use cs_bytes::same_bytes;
use cs_grammar::number_of;
use cs_lines::{find_nonterminal, find_token};
use cs_yacc::YaccFile;

// Whether it begins as a byte between quotes does.
fn is_quoted(name: &[u8]) -> bool
    ensures { IsTrue result ↔ (slice_get name.now 0 ≡ Some quote) }
{
    match name.first() {
        Some(byte) => *byte == b'\'',
        None => false,
    }
}

/// The first token with this name. Where it is a word the file's table has it.
pub(crate) fn look_up_token(file: &YaccFile, name: &[u8]) -> Option<u16>
    ensures some { IfSome result (IsTokenNamed file.now name.now) }
    ensures none { IfNone result (HasNoToken file.now name.now) }
{
    let _named = file.token_names();
    if is_quoted(name) {
        find_token(file, name)
    } else {
        file.token(name)
    }
}

/// The first nonterminal with this name. The one at the place is looked at first: names often come in the order of the
/// file's.
pub(crate) fn look_for_nonterminal(file: &YaccFile, place: usize, name: &[u8]) -> Option<u16>
    ensures some { IfSome result (IsNonterminalNamed file.now name.now) }
    ensures none { IfNone result (HasNoNonterminal file.now name.now) }
{
    let names = file.nonterminal_names();
    if place < names.len() && same_bytes(names[place].bytes(), name) {
        Some(number_of(place))
    } else {
        find_nonterminal(file, name)
    }
}
