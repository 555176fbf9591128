// What a line is, by what it begins with.

ghost use Rattle.std.specs.Prelude.{◌≡◌};
ghost use Rattle.cs_bytes.specs.Places.{front};
ghost use Rattle.cs_lex.specs.Layout.Lines as spec;

use cs_bytes::{ByteClass, begins, from_offset, has_at, has_pair, run_len, same_bytes, to_offset};
use cs_ctext::opens_comment;

/// What a line is.
#[derive(Clone, Copy, Debug, PartialEq, Eq)]
pub enum LineKind {
    SectionEnd,
    Block,
    Options,
    Skipped,
    Conditions,
    Unknown,
    Loose,
    Definition,
    Rule,
    NoForm,
}

fn is_skipped(word: &[u8]) -> bool
    ensures { result ≡ spec.is_among spec.skipped_words word.now }
{
    same_bytes(word, b"array")
        || same_bytes(word, b"pointer")
        || same_bytes(word, b"p")
        || same_bytes(word, b"n")
        || same_bytes(word, b"a")
        || same_bytes(word, b"e")
        || same_bytes(word, b"k")
        || same_bytes(word, b"o")
}

/// Whether `%option` may have the word.
pub(crate) fn is_option(word: &[u8]) -> bool
    ensures { result ≡ spec.is_among spec.option_words word.now }
{
    same_bytes(word, b"noyywrap")
        || same_bytes(word, b"yylineno")
        || same_bytes(word, b"nounput")
        || same_bytes(word, b"noinput")
        || same_bytes(word, b"nodefault")
        || same_bytes(word, b"warn")
        || same_bytes(word, b"debug")
        || same_bytes(word, b"verbose")
        || same_bytes(word, b"8bit")
        || same_bytes(word, b"reentrant")
        || same_bytes(word, b"bison-bridge")
        || same_bytes(word, b"bison-locations")
        || same_bytes(word, b"never-interactive")
        || same_bytes(word, b"always-interactive")
}

/// Whether the text begins with s, S, x or X.
fn begins_condition(word: &[u8]) -> bool
    ensures { result ≡ front spec.begins_condition word.now }
{
    matches!(word, [b's' | b'S' | b'x' | b'X', ..])
}

fn word_kind(word: &[u8]) -> LineKind
    ensures { result ≡ spec.word_kind word.now }
{
    if same_bytes(word, b"option") {
        LineKind::Options
    } else if is_skipped(word) {
        LineKind::Skipped
    } else if begins_condition(word) {
        LineKind::Conditions
    } else {
        LineKind::Unknown
    }
}

fn percent_kind(rest: &[u8]) -> LineKind
    ensures { result ≡ spec.percent_kind rest.now }
{
    if has_at(rest, 0, b'%') {
        LineKind::SectionEnd
    } else if has_at(rest, 0, b'{') {
        LineKind::Block
    } else {
        word_kind(to_offset(rest, run_len(rest, ByteClass::WordOr(b'-'))))
    }
}

fn begins_loose(text: &[u8]) -> bool
    ensures { result ≡ spec.begins_loose text.now }
{
    begins(text, ByteClass::Space) || opens_comment(text, 0)
}

/// The kind of the line of the definitions section in front of the text.
pub(crate) fn definitions_kind(text: &[u8]) -> LineKind
    ensures { result ≡ spec.definitions_kind text.now }
{
    if has_at(text, 0, b'%') {
        percent_kind(from_offset(text, 1))
    } else if begins_loose(text) {
        LineKind::Loose
    } else if begins(text, ByteClass::WordStart) {
        LineKind::Definition
    } else {
        LineKind::NoForm
    }
}

/// The kind of the line of the rules section in front of the text.
pub(crate) fn rules_kind(text: &[u8]) -> LineKind
    ensures { result ≡ spec.rules_kind text.now }
{
    if text.is_empty() || has_pair(text, 0, b'%', b'%') {
        LineKind::SectionEnd
    } else if has_pair(text, 0, b'%', b'{') {
        LineKind::Block
    } else if begins_loose(text) {
        LineKind::Loose
    } else {
        LineKind::Rule
    }
}
