// The names of symbols and marks, and bytes between quotes.

ghost use Rattle.std.specs.Prelude.{◌≡◌, ◌∷◌, ◌<◌, ◌≤◌, length, take};
ghost use Rattle.std.specs.List.{flat_map, list_all, prefix_len};
ghost use Rattle.cs_bytes.specs.Names.{space};
ghost use Rattle.cs_grammar.specs.Grammar.{IsNumberOf};
ghost use Rattle.cs_manifest.specs.Output.Names as names;
ghost use Rattle.cs_manifest.specs.Output.Putting.{Puts};
ghost use Rattle.cs_manifest.specs.Output.Words as words;

use crate::output::output::Output;
use cs_grammar::{Mark, Symbol, place_of};
use cs_io::Sink;
use cs_yacc::{TokenName, YaccFile};

fn put_token<S: Sink>(output: &mut Output<'_, S>, file: &YaccFile, token: u16)
    requires { names.IsNamedToken file.now token }
    ensures { Puts S.Sink (names.token_of file.now token) output.old output.new }
{
    put_token_name(output, &file.token_names()[place_of(token)]);
}

/// A nonterminal's name.
pub(crate) fn put_nonterminal<S: Sink>(
    output: &mut Output<'_, S>,
    file: &YaccFile,
    nonterminal: u16,
)
    requires { IsNumberOf (length file.now.nonterminal_names) nonterminal }
    ensures { Puts S.Sink (names.nonterminal_of file.now nonterminal) output.old output.new }
{
    output.put(file.nonterminal_names()[place_of(nonterminal)].bytes());
}

/// A symbol's name.
pub fn put_symbol<S: Sink>(output: &mut Output<'_, S>, file: &YaccFile, symbol: Symbol)
    requires { names.IsNamedSymbol file.now symbol }
    ensures { Puts S.Sink (names.symbol_text file.now symbol) output.old output.new }
{
    match symbol {
        Symbol::Token(token) => put_token(output, file, token),
        Symbol::Nonterminal(nonterminal) => put_nonterminal(output, file, nonterminal),
    }
}

/// A token's name behind a space.
#[inline(always)]
pub fn put_spaced_token<S: Sink>(output: &mut Output<'_, S>, file: &YaccFile, token: u16)
    requires { names.IsNamedToken file.now token }
    ensures { Puts S.Sink (space ∷ names.token_of file.now token) output.old output.new }
{
    put_spaced_name(output, &file.token_names()[place_of(token)]);
}

/// A mark's name behind a space.
pub fn put_spaced_mark<S: Sink>(output: &mut Output<'_, S>, file: &YaccFile, mark: Mark)
    requires { names.IsNamedMark file.now mark }
    ensures { Puts S.Sink (space ∷ names.mark_text file.now mark) output.old output.new }
{
    match mark {
        Mark::Begin => output.put(b" <begin>"),
        Mark::Token(token) => put_spaced_token(output, file, token),
        Mark::End => output.put(b" <end>"),
    }
}

/// A token's name behind a space, by the name.
pub(crate) fn put_spaced_name<S: Sink>(output: &mut Output<'_, S>, name: &TokenName)
    ensures { Puts S.Sink (space ∷ names.token_text name.now) output.old output.new }
{
    match name {
        TokenName::Word(name) => output.put_spaced(name.bytes()),
        TokenName::Byte(byte) => put_spaced_literal(output, *byte),
    }
}

/// A token's name, by the name.
pub fn put_token_name<S: Sink>(output: &mut Output<'_, S>, name: &TokenName)
    ensures { Puts S.Sink (names.token_text name.now) output.old output.new }
{
    match name {
        TokenName::Word(name) => output.put(name.bytes()),
        TokenName::Byte(byte) => put_literal(output, *byte),
    }
}

// A space, and a byte between single quotes.
fn put_spaced_literal<S: Sink>(output: &mut Output<'_, S>, byte: u8)
    ensures { Puts S.Sink (space ∷ words.literal byte) output.old output.new }
{
    if is_plain_literal(byte) {
        output.put(&[b' ', b'\'', byte, b'\'']);
    } else {
        output.put(b" ");
        put_literal(output, byte);
    }
}

// A byte between single quotes.
fn put_literal<S: Sink>(output: &mut Output<'_, S>, byte: u8)
    ensures { Puts S.Sink (words.literal byte) output.old output.new }
{
    if is_plain_literal(byte) {
        output.put(&[b'\'', byte, b'\'']);
    } else {
        let high = hexadecimal_digit(byte / 16);
        let low = hexadecimal_digit(byte % 16);
        output.put(&[b'\'', b'\\', b'x', high, low, b'\'']);
    }
}

fn is_plain_literal(byte: u8) -> bool
    ensures { result ≡ words.is_plain_literal byte }
{
    (b'!'..=b'~').contains(&byte) && byte != b'\'' && byte != b'\\'
}

/// A text between double quotes.
pub fn put_quoted<S: Sink>(output: &mut Output<'_, S>, text: &[u8])
    ensures { Puts S.Sink (words.quoted text.now) output.old output.new }
{
    output.put(b"\"");
    put_text_bytes(output, text);
    output.put(b"\"");
}

/// Bytes of a text between double quotes.
pub fn put_text_bytes<S: Sink>(output: &mut Output<'_, S>, text: &[u8])
    ensures { Puts S.Sink (flat_map words.text_byte text.now) output.old output.new }
{
    if text.is_empty() {
        return;
    }
    if is_plain(text) {
        output.put(text);
    } else {
        put_runs(output, text);
    }
}

// Whether each byte stands for itself. It looks at all of them, and so at many at once.
fn is_plain(text: &[u8]) -> bool
    ensures { result ≡ list_all words.is_plain_text text.now }
{
    let mut plain = true;
    for byte in text {
        plain &= is_plain_text(*byte);
    }
    plain
}

fn put_runs<S: Sink>(output: &mut Output<'_, S>, text: &[u8])
    ensures { Puts S.Sink (flat_map words.text_byte text.now) output.old output.new }
{
    let mut at = 0usize;
    while at < text.len() {
        at += put_some(output, &text[at..]);
    }
}

// Puts the plain bytes in front, or the first byte where it isn't plain, and answers how many bytes of the text these are.
fn put_some<S: Sink>(output: &mut Output<'_, S>, text: &[u8]) -> usize
    requires { 0 < length text.now }
    ensures some { 0 < result }
    ensures within { result ≤ length text.now }
    ensures put { Puts S.Sink (flat_map words.text_byte (take result text.now))
        output.old output.new }
{
    let plain = plain_len(text);
    if plain > 0 {
        output.put(&text[..plain]);
        return plain;
    }
    put_text_byte(output, text[0]);
    1
}

// How many bytes in front stand for themselves.
fn plain_len(text: &[u8]) -> usize
    ensures { result ≡ prefix_len words.is_plain_text text.now }
{
    text.iter().take_while(|byte| is_plain_text(**byte)).count()
}

fn is_plain_text(byte: u8) -> bool
    ensures { result ≡ words.is_plain_text byte }
{
    (b' '..=b'~').contains(&byte) && byte != b'"' && byte != b'\\'
}

fn put_text_byte<S: Sink>(output: &mut Output<'_, S>, byte: u8)
    ensures { Puts S.Sink (words.text_byte byte) output.old output.new }
{
    if is_plain_text(byte) {
        output.put(&[byte]);
        return;
    }
    let high = hexadecimal_digit(byte / 16);
    let low = hexadecimal_digit(byte % 16);
    output.put(&[b'\\', b'x', high, low]);
}

fn hexadecimal_digit(value: u8) -> u8
    requires { value < 16 }
    ensures { result ≡ words.hexadecimal_digit value }
{
    if value <= 9 {
        b'0' + value
    } else {
        b'a' + (value - 10)
    }
}
