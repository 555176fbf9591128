//! What the tests are run on: a yacc file, a lex file, and what is made of them.

ghost use Rattle.std.specs.Prelude.{◌<◌, ◌≡◌, ◌≤◌, ◌↔◌, All, IsTrue, length};

use cs_grammar::place_of;
use cs_lex::LexFile;
use cs_sample_files::{Trouble, lexemes_of, read_files};
use cs_scanner::{Automaton, Lexemes, Scanner, scan};
use cs_texts::{Rendered, render};
use cs_yacc::{TokenName, YaccFile};
use std::alloc::{AllocError, Global};

/// Puts the name of a token and its lexeme, or `none`.
fn put_lexeme(
    out: &mut String,
    name: &TokenName,
    lexemes: &Lexemes,
    token: u16,
) -> Result<(), AllocError>
    requires some { 0 < token }
    requires within { token ≤ length lexemes.now }
{
    match name {
        TokenName::Word(name) => write!(out, "{}", name.bytes().escape_ascii())?,
        TokenName::Byte(byte) => write!(out, "'{}'", byte.escape_ascii())?,
    }
    match lexemes.get(token) {
        Some(text) => write!(out, " {}\n", text.escape_ascii()),
        None => write!(out, " none\n"),
    }
}

// Puts a line for each token.
fn put_lexemes(out: &mut String, yacc: &YaccFile, lexemes: &Lexemes) -> Result<(), AllocError>
    requires each { length lexemes.now ≡ yacc.now.grammar.tokens }
{
    for token in 1..=yacc.grammar().tokens() {
        if let Some(name) = yacc.token_names().get(place_of(token)) {
            put_lexeme(out, name, lexemes, token)?;
        }
    }
    Ok(())
}

// The lines of the tokens of files that were read.
fn lexeme_lines(alloc: Global, yacc: &YaccFile, lex: &LexFile) -> Result<String, Trouble> {
    let lexemes = lexemes_of(alloc, yacc, lex)?;
    let mut out = String::new(alloc);
    put_lexemes(&mut out, yacc, &lexemes)?;
    Ok(out)
}

/// A line for each token: its name, and its lexeme with escapes, or `none`.
pub(crate) fn lexemes(alloc: Global, yacc: &[u8], lex: &[u8]) -> Result<String, Trouble> {
    let (yacc, lex) = read_files(alloc, yacc, lex)?;
    lexeme_lines(alloc, &yacc, &lex)
}

/// Whether each of the numbers is one of a token.
fn are_tokens(numbers: &[u16], most: u16) -> bool
    ensures { IsTrue result ↔ All (λ number. (0 < number) × (number ≤ most)) numbers.now }
{
    numbers.iter().all(|number| 0 < *number && *number <= most)
}

// What comes of a list of tokens, by a lex file that was read and the greatest number of a token.
fn rendering(
    alloc: Global,
    lex: &LexFile,
    most: u16,
    separator: &[u8],
    tokens: &[u16],
) -> Result<Rendered, Trouble> {
    if !are_tokens(tokens, most) || tokens.len() > 1_000 {
        return Err(Trouble::TooLong);
    }
    let automaton = Automaton::new(alloc, lex.patterns())?;
    let scanner = Scanner {
        automaton: &automaton,
        kinds: lex.kinds(),
        literals: lex.literals(),
    };
    let lexemes = Lexemes::new(alloc, &scanner, most)?;
    Ok(render(alloc, &scanner, &lexemes, separator, tokens)?)
}

fn shown(alloc: Global, rendered: &Rendered) -> Result<String, AllocError> {
    match rendered {
        Rendered::Text(text) => format!(in alloc; "text {}", text.escape_ascii()),
        Rendered::NoLexeme(token) => format!(in alloc; "no lexeme {token}"),
        Rendered::Differs { after } => format!(in alloc; "differs {after}"),
    }
}

/// What comes of a list of tokens, as text.
pub(crate) fn rendered(
    alloc: Global,
    yacc: &[u8],
    lex: &[u8],
    separator: &[u8],
    tokens: &[u16],
) -> Result<String, Trouble> {
    let (yacc, lex) = read_files(alloc, yacc, lex)?;
    let rendered = rendering(alloc, &lex, yacc.grammar().tokens(), separator, tokens)?;
    Ok(shown(alloc, &rendered)?)
}

// What the scan of a text answers, by a lex file that was read.
fn scan_of(alloc: Global, lex: &LexFile, text: &[u8]) -> Result<String, Trouble> {
    if text.len() > 1_000 {
        return Err(Trouble::TooLong);
    }
    let automaton = Automaton::new(alloc, lex.patterns())?;
    let scanner = Scanner {
        automaton: &automaton,
        kinds: lex.kinds(),
        literals: lex.literals(),
    };
    let scanned = scan(alloc, &scanner, text)?;
    Ok(format!(in alloc; "{scanned:?}")?)
}

/// What the scan of a text answers, as text.
pub(crate) fn scanned(
    alloc: Global,
    yacc: &[u8],
    lex: &[u8],
    text: &[u8],
) -> Result<String, Trouble> {
    let (_, lex) = read_files(alloc, yacc, lex)?;
    scan_of(alloc, &lex, text)
}
