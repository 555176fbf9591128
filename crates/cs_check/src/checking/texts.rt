// Whether names are those of symbols, one by one.

ghost use Rattle.std.specs.Prelude.{◌≡◌, ◌↔◌, IsTrue, map};
ghost use Rattle.cs_lines.specs.Words.Names.{token_of, symbol_text};
ghost use Rattle.cs_lines.specs.Lines.Read.{names_in};

use cs_grammar::Symbol;
use cs_lines::{Names, is_symbol, is_token};
use cs_yacc::YaccFile;

/// Whether these are the names of the symbols.
pub(crate) fn are_symbols(file: &YaccFile, names: Names<'_>, symbols: &[Symbol]) -> bool
    ensures { IsTrue result
        ↔ (names_in names.entry ≡ map (symbol_text file.now) symbols.now) }
{
    let mut rest = names;
    for symbol in symbols {
        let Some(name) = rest.next() else {
            return false;
        };
        if !is_symbol(file, *symbol, name) {
            return false;
        }
    }
    rest.next().is_none()
}

/// Whether these are the names of the tokens.
pub(crate) fn are_tokens(file: &YaccFile, names: Names<'_>, tokens: &[u16]) -> bool
    ensures { IsTrue result ↔ (names_in names.entry ≡ map (token_of file.now) tokens.now) }
{
    let mut rest = names;
    for token in tokens {
        let Some(name) = rest.next() else {
            return false;
        };
        if !is_token(file, *token, name) {
            return false;
        }
    }
    rest.next().is_none()
}
