// Comments that say what an action gives.

ghost use Rattle.std.specs.Prelude.{◌≡◌, ◌<◌, ℕ, false, length, IfSome, IfNone};
ghost use Rattle.cs_ctext.specs.Literals.{IsLiteral};
ghost use Rattle.cs_yacc.specs.Items.Bytes as yacc;
ghost use Rattle.cs_lex.specs.Actions.Marks as spec;
ghost use Rattle.cs_lex.specs.Actions.MarkViews.{FindsSpelled, FindsIn, FindsFront, FindsMark};

use crate::actions::named::{begins_with, literal_at};
use cs_bytes::{ByteClass, from_offset, run_len, same_bytes, to_offset};
use cs_ctext::{CText, skip_comment};

/// What a mark says.
#[derive(Clone, Copy, Debug)]
pub(crate) enum ActionMark<'a> {
    Skip,
    Word(&'a [u8]),
    Literal(u8),
}

fn begins_name(byte: u8) -> bool
    ensures { result ≡ yacc.begins_name byte }
{
    ByteClass::WordStart.has(byte) || byte == b'.'
}

/// Whether a name fills the text.
fn is_name(text: &[u8]) -> bool
    ensures { result ≡ spec.is_name text.now }
{
    match text {
        [byte, ..] => begins_name(*byte) && run_len(text, ByteClass::WordOr(b'.')) == text.len(),
        [] => false,
    }
}

/// The byte of the literal that fills the text.
fn literal_of(text: &[u8]) -> Option<u8>
    ensures found { IfSome result (λ byte. IsLiteral text.now byte (length text.now)) }
    ensures none { IfNone result ((byte : ℕ) → ¬ IsLiteral text.now byte (length text.now)) }
{
    let (byte, size) = literal_at(text)?;
    if size == text.len() { Some(byte) } else { None }
}

/// The name or literal that fills the text.
fn spelled(text: &[u8]) -> Option<ActionMark<'_>>
    ensures { FindsSpelled text.now result }
{
    if is_name(text) {
        return Some(ActionMark::Word(text));
    }
    let byte = literal_of(text)?;
    Some(ActionMark::Literal(byte))
}

/// What the comment says, where it is a mark.
fn mark_of(comment: &[u8]) -> Option<ActionMark<'_>>
    ensures { FindsIn comment.now result }
{
    if same_bytes(comment, b"/*@skip*/") {
        return Some(ActionMark::Skip);
    }
    if !begins_with(comment, b"/*@token") {
        return None;
    }
    let inside = from_offset(comment, 8);
    let blanks = run_len(inside, ByteClass::Blank);
    if blanks == 0 {
        return None;
    }
    let rest = from_offset(inside, blanks);
    spelled(to_offset(rest, rest.len().saturating_sub(2)))
}

/// The mark in front of the text.
fn mark_at(text: &[u8]) -> Option<ActionMark<'_>>
    ensures { FindsFront text.now result }
{
    let size = skip_comment(text, 0)?;
    mark_of(to_offset(text, size))
}

/// The first mark of the text. A comment that isn't closed takes the rest.
pub(crate) fn first_mark(text: &[u8]) -> Option<ActionMark<'_>>
    ensures { FindsMark text.now result }
{
    let mut walk = CText::new(text);
    let mut at = 0;
    while at < text.len() {
        if let Some(mark) = mark_at(from_offset(text, at)) {
            return Some(mark);
        }
        at = walk.skip_part(at)?;
    }
    None
}
