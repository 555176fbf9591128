// The item at the front of a text.

ghost use Rattle.std.specs.Prelude.{◌≡◌, ◌+◌, length, IfOk};
ghost use Rattle.cs_pattern_parts.specs.Items.ByteKind.{is_plain};
ghost use Rattle.cs_pattern_parts.specs.Items.Front as spec;
ghost use Rattle.cs_pattern_parts.specs.Items.Character as characters;
ghost use Rattle.cs_pattern_parts.specs.Items.Quoted as quotes;
ghost use Rattle.cs_pattern_parts.specs.Items.Bracket as brackets;
ghost use Rattle.cs_pattern_parts.specs.Items.Views.{item_of, IsFront, FrontWithin, front_of as seen};

use crate::items::bracket::{Bracket, read_bracket};
use crate::items::byte_set::ByteSet;
use crate::items::character::escape;
use crate::items::interval::{interval, name};
use crate::items::item::{Item, Repetition};
use crate::items::quoted::quoted;
use std::alloc::{AllocError, Global};

/// Why no item stands at the front of a text.
#[derive(Clone, Copy, Debug, PartialEq, Eq)]
pub enum Stop {
    /// A `^` or a `$`.
    Anchor,
    /// A `/`.
    Trailing,
    /// A closed bracket with a collating symbol or an equivalence class.
    Collation,
    /// Anything else that spells no item, and the end.
    Syntax,
}

/// What stands at the front of a text: an item and its size, or why there is none.
pub enum Front {
    Item(Item, usize),
    Stop(Stop),
}

/// Whether the byte stands for itself outside quotes and brackets, wherever it stands.
fn is_plain(byte: u8) -> bool
    ensures { result ≡ is_plain byte }
{
    !matches!(
        byte,
        b' ' | b'\t'
            | b'\r'
            | b'\n'
            | b'"'
            | b'\\'
            | b'.'
            | b'['
            | b'('
            | b')'
            | b'|'
            | b'*'
            | b'+'
            | b'?'
            | b'{'
            | b'^'
            | b'$'
            | b'/'
    )
}

fn one_byte_item(byte: u8) -> Item
    ensures { item_of result ≡ spec.one_byte_item byte }
{
    let mut set = ByteSet::new();
    set.insert(byte);
    Item::Class(set)
}

/// `.`: every byte but newline.
fn any_byte() -> Item
    ensures { item_of result ≡ spec.any_byte }
{
    let mut newline = ByteSet::new();
    newline.insert(b'\n');
    Item::Class(newline.complement())
}

fn escape_front(rest: &[u8]) -> Front
    ensures value { seen result ≡ spec.escape_front (characters.escape rest.now) }
    ensures size { FrontWithin (length rest.now + 1) result }
{
    match escape(rest) {
        Some((Some(byte), size)) => Front::Item(one_byte_item(byte), size + 1),
        _ => Front::Stop(Stop::Syntax),
    }
}

fn quoted_front(alloc: Global, rest: &[u8]) -> Result<Front, AllocError>
    ensures value { IfOk result (λ f. seen f ≡ spec.quoted_front (quotes.quoted rest.now)) }
    ensures size { IfOk result (FrontWithin (length rest.now + 1)) }
{
    match quoted(alloc, rest)? {
        Some((bytes, size)) => Ok(Front::Item(Item::Quoted(bytes), size + 1)),
        None => Ok(Front::Stop(Stop::Syntax)),
    }
}

fn bracket_front(alloc: Global, rest: &[u8]) -> Result<Front, AllocError>
    ensures value { IfOk result (λ f. seen f ≡ spec.bracket_front (brackets.bracket rest.now)) }
    ensures size { IfOk result (FrontWithin (length rest.now + 1)) }
{
    match read_bracket(alloc, rest)? {
        Bracket::Set(set, size) => Ok(Front::Item(Item::Class(set), size + 1)),
        Bracket::Collation => Ok(Front::Stop(Stop::Collation)),
        Bracket::Nothing => Ok(Front::Stop(Stop::Syntax)),
    }
}

fn brace_front(alloc: Global, rest: &[u8]) -> Result<Front, AllocError>
    ensures value { IfOk result (λ f. seen f ≡ spec.brace rest.now) }
    ensures size { IfOk result (FrontWithin (length rest.now + 1)) }
{
    if let Some((repetition, size)) = interval(rest) {
        return Ok(Front::Item(Item::Repeat(repetition), size + 1));
    }
    match name(rest) {
        Some((name, size)) => {
            let name = Vec::from_slice(alloc, name)?;
            Ok(Front::Item(Item::Name(name), size + 1))
        }
        None => Ok(Front::Stop(Stop::Syntax)),
    }
}

/// What one byte is that begins nothing longer.
#[tactic(auto, unfolding(crate::specs::Items::Front::sign_front))]
fn sign_front(byte: u8) -> Front
    ensures value { seen result ≡ spec.sign_front byte }
    ensures size { FrontWithin 1 result }
{
    match byte {
        b'.' => Front::Item(any_byte(), 1),
        b'(' => Front::Item(Item::Open, 1),
        b')' => Front::Item(Item::Close, 1),
        b'|' => Front::Item(Item::Bar, 1),
        b'*' => Front::Item(Item::Repeat(Repetition::AtLeast(0)), 1),
        b'+' => Front::Item(Item::Repeat(Repetition::AtLeast(1)), 1),
        b'?' => Front::Item(Item::Repeat(Repetition::Optional), 1),
        b'^' | b'$' => Front::Stop(Stop::Anchor),
        b'/' => Front::Stop(Stop::Trailing),
        other => if is_plain(other) {
            Front::Item(one_byte_item(other), 1)
        } else {
            Front::Stop(Stop::Syntax)
        },
    }
}

#[tactic(auto, unfolding(crate::specs::Items::Front::front))]
fn read_front(alloc: Global, text: &[u8]) -> Result<Front, AllocError>
    ensures value { IfOk result (λ f. seen f ≡ spec.front text.now) }
    ensures size { IfOk result (FrontWithin (length text.now)) }
{
    let [first, rest @ ..] = text else {
        return Ok(Front::Stop(Stop::Syntax));
    };
    match *first {
        b'\\' => Ok(escape_front(rest)),
        b'"' => quoted_front(alloc, rest),
        b'[' => bracket_front(alloc, rest),
        b'{' => brace_front(alloc, rest),
        other => Ok(sign_front(other)),
    }
}

/// The item that the text spells in front, and its size in bytes, or why it spells none; at its end it spells none (POSIX
/// lex, "Regular expressions in lex").
pub fn front_of(alloc: Global, text: &[u8]) -> Result<Front, AllocError>
    ensures spelled { IfOk result (IsFront text.now) }
    ensures size { IfOk result (FrontWithin (length text.now)) }
{
    read_front(alloc, text)
}
