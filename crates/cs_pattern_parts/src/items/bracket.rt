// Brackets (POSIX, bracket expressions in the POSIX locale).

ghost use Rattle.std.specs.Prelude.{◌≡◌, ◌==◌, ◌&&◌, ◌<◌, ◌+◌, IsTrue, IfOk, length, drop, Some, None, ◌≤◌};
ghost use Rattle.std.specs.List.{list_any};
ghost use Rattle.cs_pattern_parts.specs.Items.Members.{bytes_where};
ghost use Rattle.cs_pattern_parts.specs.Items.Bracket as spec;
ghost use Rattle.cs_pattern_parts.specs.Items.Brackets as brackets;
ghost use Rattle.cs_pattern_parts.specs.Items.NamedClasses as classes;
ghost use Rattle.cs_pattern_parts.specs.Items.Inserting.{Inserts, InsertsRange, AddsOrRefuses, IsSetOrNone};
ghost use Rattle.cs_pattern_parts.specs.Items.Views.{mark_of, marks_of, bracket_of, IsWithin};

use crate::items::byte_set::ByteSet;
use crate::items::mark::{BracketMark, marks};
use cs_bytes::{from_offset, has_at};
use std::alloc::{AllocError, Global};

/// What a `[` begins.
pub(crate) enum Bracket {
    /// The bytes of the bracket, and its size without the `[`.
    Set(ByteSet, usize),
    /// A closed bracket with a collating symbol or an equivalence class.
    Collation,
    /// It is not closed or is no bracket.
    Nothing,
}

/// The named classes, which are those of ASCII.
#[derive(Clone, Copy, Debug, PartialEq, Eq)]
pub(crate) enum Class {
    Upper,
    Lower,
    Digit,
    Alpha,
    Alnum,
    Xdigit,
    Blank,
    Space,
    Cntrl,
    Graph,
    Print,
    Punct,
}

#[tactic(auto, unfolding(crate::specs::Items::NamedClasses::letter_class))]
fn letter_class(name: &[u8]) -> Option<Class>
    ensures { result ≡ classes.letter_class name.now }
{
    if name == b"upper".as_slice() {
        return Some(Class::Upper);
    }
    if name == b"lower".as_slice() {
        return Some(Class::Lower);
    }
    if name == b"digit".as_slice() {
        return Some(Class::Digit);
    }
    if name == b"alpha".as_slice() {
        return Some(Class::Alpha);
    }
    if name == b"alnum".as_slice() {
        return Some(Class::Alnum);
    }
    if name == b"xdigit".as_slice() {
        return Some(Class::Xdigit);
    }
    None
}

#[tactic(auto, unfolding(crate::specs::Items::NamedClasses::other_class))]
fn other_class(name: &[u8]) -> Option<Class>
    ensures { result ≡ classes.other_class name.now }
{
    if name == b"blank".as_slice() {
        return Some(Class::Blank);
    }
    if name == b"space".as_slice() {
        return Some(Class::Space);
    }
    if name == b"cntrl".as_slice() {
        return Some(Class::Cntrl);
    }
    if name == b"graph".as_slice() {
        return Some(Class::Graph);
    }
    if name == b"print".as_slice() {
        return Some(Class::Print);
    }
    if name == b"punct".as_slice() {
        return Some(Class::Punct);
    }
    None
}

/// The class of that name.
#[tactic(auto, unfolding(crate::specs::Items::NamedClasses::class_of))]
fn class_of(name: &[u8]) -> Option<Class>
    ensures { result ≡ classes.class_of name.now }
{
    match letter_class(name) {
        Some(class) => Some(class),
        None => other_class(name),
    }
}

#[tactic(auto, unfolding(crate::specs::Items::NamedClasses::is_in_class))]
fn is_in_class(class: Class, byte: u8) -> bool
    ensures { result ≡ classes.is_in_class class byte }
{
    match class {
        Class::Upper => byte.is_ascii_uppercase(),
        Class::Lower => byte.is_ascii_lowercase(),
        Class::Digit => byte.is_ascii_digit(),
        Class::Alpha => byte.is_ascii_alphabetic(),
        Class::Alnum => byte.is_ascii_alphanumeric(),
        Class::Xdigit => byte.is_ascii_hexdigit(),
        Class::Blank => matches!(byte, b' ' | b'\t'),
        Class::Space => matches!(byte, b' ' | 9..=13),
        Class::Cntrl => matches!(byte, 0..=31 | 127),
        Class::Graph => matches!(byte, 33..=126),
        Class::Print => matches!(byte, 32..=126),
        Class::Punct => matches!(byte, 33..=126) && !byte.is_ascii_alphanumeric(),
    }
}

/// The bytes of the class.
fn class_bytes(class: Class) -> ByteSet
    ensures { result ≡ bytes_where (classes.is_in_class class) }
{
    let mut set = ByteSet::new();
    for index in 0..256u16 {
        let byte = index as u8;
        if is_in_class(class, byte) {
            set.insert(byte);
        }
    }
    set
}

/// The byte for which a mark stands, if it stands for one.
fn byte_of_mark(mark: BracketMark<'_>) -> Option<u8>
    ensures { result ≡ spec.byte_of_mark (mark_of mark.entry) }
{
    match mark {
        BracketMark::Plain(byte) => Some(byte),
        BracketMark::Escape(byte) => byte,
        BracketMark::Class(_) | BracketMark::Collating => None,
    }
}

fn insert_byte(set: &mut ByteSet, byte: Option<u8>) -> bool
    ensures { Inserts set.old set.new (spec.same byte) result }
{
    match byte {
        Some(byte) => {
            set.insert(byte);
            true
        }
        None => false,
    }
}

fn insert_named(set: &mut ByteSet, name: &[u8]) -> bool
    ensures { Inserts set.old set.new (spec.class_test name.now) result }
{
    match class_of(name) {
        Some(class) => {
            *set = set.union(&class_bytes(class));
            true
        }
        None => false,
    }
}

/// Adds the bytes of a mark that stands alone. Whether it stands for some.
fn insert_mark(set: &mut ByteSet, mark: BracketMark<'_>) -> bool
    ensures { Inserts set.old set.new
        (spec.member_test (brackets.one (mark_of mark.entry))) result }
{
    match mark {
        BracketMark::Class(name) => insert_named(set, name),
        BracketMark::Plain(byte) => insert_byte(set, Some(byte)),
        BracketMark::Escape(byte) => insert_byte(set, byte),
        BracketMark::Collating => false,
    }
}

/// Adds the bytes from the one mark through the other. Whether they are a range.
fn insert_range(set: &mut ByteSet, first: BracketMark<'_>, last: BracketMark<'_>) -> bool
    ensures { InsertsRange set.old set.new (mark_of first.entry) (mark_of last.entry) result }
{
    match (byte_of_mark(first), byte_of_mark(last)) {
        (Some(first), Some(last)) if first <= last => {
            set.insert_range(first, last);
            true
        }
        _ => false,
    }
}

fn is_dash(mark: BracketMark<'_>) -> bool
    ensures { result ≡ spec.is_dash (mark_of mark.entry) }
{
    matches!(mark, BracketMark::Plain(b'-'))
}

/// Whether a range begins at the index: a `-` stands behind it, and a mark behind that.
fn begins_range(marks: &[BracketMark<'_>], index: usize) -> bool
    requires { index < length marks.now }
    ensures value { result ≡ spec.begins_range (drop index (marks_of marks.now)) }
    ensures within { IsTrue result → index + 2 < length marks.now }
{
    if index + 2 < marks.len() {
        is_dash(marks[index + 1])
    } else {
        false
    }
}

/// Adds the bytes of the member that begins at the index. Where it ends, or `None` where it is refused.
fn insert_member(set: &mut ByteSet, marks: &[BracketMark<'_>], index: usize) -> Option<usize>
    requires { index < length marks.now }
    ensures { AddsOrRefuses (marks_of marks.now) index set.old set.new result }
{
    if begins_range(marks, index) {
        if insert_range(set, marks[index], marks[index + 2]) {
            Some(index + 3)
        } else {
            None
        }
    } else if insert_mark(set, marks[index]) {
        Some(index + 1)
    } else {
        None
    }
}

fn unless_empty(set: ByteSet) -> Option<ByteSet>
    ensures { result ≡ spec.unless_empty set }
{
    if set.is_empty() { None } else { Some(set) }
}

/// The bytes of the marks. `None` where some marks are no member.
fn members(marks: &[BracketMark<'_>]) -> Option<ByteSet>
    ensures { IsSetOrNone (marks_of marks.now) result }
{
    let mut set = ByteSet::new();
    let mut index = 0;
    while index < marks.len() {
        index = insert_member(&mut set, marks, index)?;
    }
    Some(set)
}

fn is_collating(mark: &BracketMark<'_>) -> bool
    ensures { result ≡ spec.is_collating (mark_of mark.now) }
{
    matches!(*mark, BracketMark::Collating)
}

fn has_collating(marks: &[BracketMark<'_>]) -> bool
    ensures { result ≡ list_any spec.is_collating (marks_of marks.now) }
{
    for mark in marks {
        if is_collating(mark) {
            return true;
        }
    }
    false
}

/// The set of these marks, or its complement. `None` where the marks are refused or the set is empty.
fn set_of(marks: &[BracketMark<'_>], inverted: bool) -> Option<ByteSet>
    ensures { result ≡ spec.turned inverted (spec.member_bytes (marks_of marks.now)) }
{
    let set = members(marks)?;
    if inverted {
        unless_empty(set.complement())
    } else {
        unless_empty(set)
    }
}

/// What a closed bracket is, of these marks and this size.
fn closed(inverted: bool, marks: &[BracketMark<'_>], size: usize) -> Bracket
    ensures value { bracket_of result ≡ spec.closed inverted (marks_of marks.now) size }
    ensures size { IsWithin size result }
{
    if has_collating(marks) {
        return Bracket::Collation;
    }
    match set_of(marks, inverted) {
        Some(set) => Bracket::Set(set, size),
        None => Bracket::Nothing,
    }
}

/// What the `[` begins, or the `[^`, behind which the text stands.
fn bracket_in(
    alloc: Global,
    inverted: bool,
    skipped: usize,
    text: &[u8],
) -> Result<Bracket, AllocError>
    requires { skipped ≤ 1 }
    ensures value { IfOk result (λ b. bracket_of b ≡ spec.bracket_in inverted skipped text.now) }
    ensures size { IfOk result (λ b. IsWithin (skipped + length text.now) b) }
{
    let (marks, size) = marks(alloc, text)?;
    if has_at(text, size, b']') {
        Ok(closed(inverted, &marks, skipped + (size + 1)))
    } else {
        Ok(Bracket::Nothing)
    }
}

/// What the `[` before the text begins.
#[tactic(auto, unfolding(crate::specs::Items::Bracket::bracket))]
pub(crate) fn read_bracket(alloc: Global, text: &[u8]) -> Result<Bracket, AllocError>
    ensures value { IfOk result (λ b. bracket_of b ≡ spec.bracket text.now) }
    ensures size { IfOk result (IsWithin (length text.now)) }
{
    if has_at(text, 0, b'^') {
        bracket_in(alloc, true, 1, from_offset(text, 1))
    } else {
        bracket_in(alloc, false, 0, text)
    }
}
