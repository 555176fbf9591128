// The items of a yacc file.

ghost use Rattle.std.specs.Prelude.{◌≡◌, ◌<◌, ◌≤◌, ℕ, suc, false, length, drop, IsTrue, slice_get, Some};
ghost use Rattle.std.specs.List.{prefix_len};
ghost use Rattle.cs_bytes.specs.Names.{percent, quote, less_sign, slash, opening_brace};
ghost use Rattle.cs_bytes.specs.Classes.{is_digit};
ghost use Rattle.cs_bytes.specs.Places.{front, begins_with, has_at};
ghost use Rattle.cs_ctext.specs.Comments.{IsComment};
ghost use Rattle.cs_yacc.specs.Items.Bytes as kinds;
ghost use Rattle.cs_yacc.specs.Items.Items as spec;
ghost use Rattle.cs_yacc.specs.Items.Finds.{FindsFront};

use crate::items::directive::{Directive, directive_of};
use cs_bytes::{ByteClass, find_pair, from_offset, has_at, run_len};
use cs_ctext::{CText, opens_comment, read_literal};

/// A piece of a yacc file.
#[derive(Clone, Copy, Debug)]
pub enum Item<'a> {
    Mark,
    Prologue,
    Directive(Directive),
    Name(&'a [u8]),
    Literal(u8),
    Number,
    Tag,
    Block,
    Colon,
    Semicolon,
    Bar,
    Comma,
}

/// An item, and the offset of its first byte.
#[derive(Clone, Copy, Debug)]
pub struct Placed<'a> {
    pub at: u32,
    pub item: Item<'a>,
}

/// What stands at the front of a text.
#[derive(Clone, Copy, Debug)]
pub(crate) enum Front<'a> {
    /// An item of this size.
    Item(Item<'a>, usize),
    /// A comment, prologue or block that isn't closed.
    Open,
    /// A directive of an unknown word.
    Unknown,
    Nothing,
}

fn prologue_at(text: &[u8]) -> Front<'_>
    requires percent { slice_get text.now 0 ≡ Some percent }
    requires brace { IsTrue (has_at text.now 1 opening_brace) }
    ensures { FindsFront text.now result }
{
    match find_pair(from_offset(text, 2), b'%', b'}') {
        Some(inside) => Front::Item(Item::Prologue, inside + 4),
        None => Front::Open,
    }
}

fn directive_at(text: &[u8]) -> Front<'_>
    requires percent { slice_get text.now 0 ≡ Some percent }
    requires no_mark { has_at text.now 1 percent ≡ false }
    requires no_prologue { has_at text.now 1 opening_brace ≡ false }
    ensures { FindsFront text.now result }
{
    let behind = from_offset(text, 1);
    let size = run_len(behind, ByteClass::WordOr(b'-'));
    if size == 0 {
        return Front::Nothing;
    }
    match directive_of(&behind[..size]) {
        Some(directive) => Front::Item(Item::Directive(directive), size + 1),
        None => Front::Unknown,
    }
}

/// What a `%` in front of the text begins.
fn percent_at(text: &[u8]) -> Front<'_>
    requires { slice_get text.now 0 ≡ Some percent }
    ensures { FindsFront text.now result }
{
    if has_at(text, 1, b'%') {
        Front::Item(Item::Mark, 2)
    } else if has_at(text, 1, b'{') {
        prologue_at(text)
    } else {
        directive_at(text)
    }
}

/// What a quote in front of the text begins.
fn literal_at(text: &[u8]) -> Front<'_>
    requires { slice_get text.now 0 ≡ Some quote }
    ensures { FindsFront text.now result }
{
    match read_literal(text, 0) {
        Some((byte, size)) => Front::Item(Item::Literal(byte), size),
        None => Front::Nothing,
    }
}

/// What a `<` in front of the text begins.
fn tag_at(text: &[u8]) -> Front<'_>
    requires { slice_get text.now 0 ≡ Some less_sign }
    ensures { FindsFront text.now result }
{
    let inside = from_offset(text, 1);
    let size = run_len(inside, ByteClass::Neither(b'>', b'\n'));
    if has_at(inside, size, b'>') {
        Front::Item(Item::Tag, size + 2)
    } else {
        Front::Nothing
    }
}

/// Whether a name goes on with the byte.
fn is_name_byte(byte: u8) -> bool
    ensures { result ≡ kinds.is_name_byte byte }
{
    byte.is_ascii_alphabetic() || byte == b'_' || byte.is_ascii_digit() || byte == b'.'
}

/// How many bytes in front of the text may stand in a name. Most bytes of a file are looked at here, so this tests them by
/// one test, where `run_len` asks for their class.
fn name_len(text: &[u8]) -> usize
    ensures len { result ≡ prefix_len kinds.is_name_byte text.now }
    ensures within { result ≤ length text.now }
{
    text.iter().take_while(|byte| is_name_byte(**byte)).count()
}

fn name_at(text: &[u8]) -> Front<'_>
    requires { IsTrue (front kinds.begins_name text.now) }
    ensures { FindsFront text.now result }
{
    let size = name_len(text);
    Front::Item(Item::Name(&text[..size]), size)
}

fn number_at(text: &[u8]) -> Front<'_>
    requires { IsTrue (front is_digit text.now) }
    ensures { FindsFront text.now result }
{
    let size = run_len(text, ByteClass::Digit);
    Front::Item(Item::Number, size)
}

/// What a `/` in front of the text begins, where no closed comment stands there.
fn slash_at(text: &[u8]) -> Front<'_>
    requires slash { slice_get text.now 0 ≡ Some slash }
    requires no_comment { (n : ℕ) → ¬ IsComment text.now n }
    ensures { FindsFront text.now result }
{
    if opens_comment(text, 0) {
        Front::Open
    } else {
        Front::Nothing
    }
}

/// What other than a block stands at the front of the text, where neither white space nor a closed comment stands there.
fn front_of(text: &[u8]) -> Front<'_>
    requires some { 0 < length text.now }
    requires no_gap { (n : ℕ) → ¬ spec.IsGap text.now (suc n) }
    requires no_block { begins_with opening_brace text.now ≡ false }
    ensures { FindsFront text.now result }
{
    match text[0] {
        b'%' => percent_at(text),
        b'\'' => literal_at(text),
        b'<' => tag_at(text),
        b'/' => slash_at(text),
        b':' => Front::Item(Item::Colon, 1),
        b';' => Front::Item(Item::Semicolon, 1),
        b'|' => Front::Item(Item::Bar, 1),
        b',' => Front::Item(Item::Comma, 1),
        b if begins_name(b) => name_at(text),
        b if ByteClass::Digit.has(b) => number_at(text),
        _ => Front::Nothing,
    }
}

fn begins_name(byte: u8) -> bool
    ensures { result ≡ kinds.begins_name byte }
{
    byte.is_ascii_alphabetic() || byte == b'_' || byte == b'.'
}

/// What stands at the offset, where neither white space nor a closed comment stands there.
pub(crate) fn front_at<'a>(text: &mut CText<'a>, at: usize) -> Front<'a>
    requires some { at < length text.old }
    requires no_gap { (n : ℕ) → ¬ spec.IsGap (drop at text.old) (suc n) }
    ensures front { FindsFront (drop at text.old) result }
    ensures text { text.new ≡ text.old }
{
    let bytes = text.bytes();
    if !has_at(bytes, at, b'{') {
        return front_of(from_offset(bytes, at));
    }
    match text.skip_block(at) {
        Some(end) => Front::Item(Item::Block, end - at),
        None => Front::Open,
    }
}
