// The directives of a yacc file.

ghost use Rattle.std.specs.Prelude.{◌≡◌};
ghost use Rattle.cs_yacc.specs.Items.Directives as spec;

use cs_bytes::same_bytes;

/// A directive, by its word.
#[derive(Clone, Copy, Debug, PartialEq, Eq)]
pub enum Directive {
    Token,
    Left,
    Right,
    Nonassoc,
    Precedence,
    TypeOf,
    Start,
    Union,
    Expect,
    Prec,
    Empty,
}

/// The directive of the word, where one has it.
pub(crate) fn directive_of(word: &[u8]) -> Option<Directive>
    ensures { result ≡ spec.directive_of word.now }
{
    if same_bytes(word, b"token") {
        Some(Directive::Token)
    } else if same_bytes(word, b"left") {
        Some(Directive::Left)
    } else if same_bytes(word, b"right") {
        Some(Directive::Right)
    } else if same_bytes(word, b"nonassoc") {
        Some(Directive::Nonassoc)
    } else if same_bytes(word, b"precedence") {
        Some(Directive::Precedence)
    } else if same_bytes(word, b"type") {
        Some(Directive::TypeOf)
    } else if same_bytes(word, b"start") {
        Some(Directive::Start)
    } else if same_bytes(word, b"union") {
        Some(Directive::Union)
    } else if same_bytes(word, b"expect") {
        Some(Directive::Expect)
    } else if same_bytes(word, b"prec") {
        Some(Directive::Prec)
    } else if same_bytes(word, b"empty") {
        Some(Directive::Empty)
    } else {
        None
    }
}
