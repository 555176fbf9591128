// Whether a symbol or a mark has a name.

ghost use Rattle.std.specs.Prelude.{◌≡◌, ◌↔◌, ◌-◌, IsTrue};
ghost use Rattle.cs_lines.specs.Words.Names.{token_of, nonterminal_of, symbol_text, mark_text};

use crate::naming::literal::is_token_text;
use cs_bytes::same_bytes;
use cs_grammar::{Mark, Symbol};
use cs_yacc::YaccFile;

// The place of a number in a list, if it is one: numbers count from 1.
fn place(number: u16) -> usize
    ensures { result ≡ number - 1 }
{
    usize::from(number.saturating_sub(1))
}

/// Whether the token has the name.
pub fn is_token(file: &YaccFile, token: u16, name: &[u8]) -> bool
    ensures { IsTrue result ↔ (token_of file.now token ≡ name.now) }
{
    match file.token_names().get(place(token)) {
        Some(text) => is_token_text(text, name),
        None => name.is_empty(),
    }
}

/// Whether the nonterminal has the name.
pub fn is_nonterminal(file: &YaccFile, nonterminal: u16, name: &[u8]) -> bool
    ensures { IsTrue result ↔ (nonterminal_of file.now nonterminal ≡ name.now) }
{
    match file.nonterminal_names().get(place(nonterminal)) {
        Some(text) => same_bytes(text.bytes(), name),
        None => name.is_empty(),
    }
}

/// Whether the symbol has the name.
pub fn is_symbol(file: &YaccFile, symbol: Symbol, name: &[u8]) -> bool
    ensures { IsTrue result ↔ (symbol_text file.now symbol ≡ name.now) }
{
    match symbol {
        Symbol::Token(token) => is_token(file, token, name),
        Symbol::Nonterminal(nonterminal) => is_nonterminal(file, nonterminal, name),
    }
}

/// Whether the mark has the name.
pub fn is_mark(file: &YaccFile, mark: Mark, name: &[u8]) -> bool
    ensures { IsTrue result ↔ (mark_text file.now mark ≡ name.now) }
{
    match mark {
        Mark::Begin => same_bytes(b"<begin>", name),
        Mark::Token(token) => is_token(file, token, name),
        Mark::End => same_bytes(b"<end>", name),
    }
}
