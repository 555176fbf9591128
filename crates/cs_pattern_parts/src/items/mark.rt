// What stands inside a bracket, one mark after another.

ghost use Rattle.std.specs.Prelude.{◌≡◌, ◌<◌, ◌≤◌, ◌+◌, length, drop, IfSome, IfOk, OnOk};
ghost use Rattle.std.specs.List.{prefix_len};
ghost use Rattle.cs_bytes.specs.Classes.{is_inner};
ghost use Rattle.cs_bytes.specs.Places as places;
ghost use Rattle.cs_pattern_parts.specs.Items.Marks as spec;
ghost use Rattle.cs_pattern_parts.specs.Items.Steps.{steps};
ghost use Rattle.cs_pattern_parts.specs.Items.Views.{sized_mark, marks_of, AddsMarks};

use crate::items::character::escape;
use cs_bytes::{ByteClass, from_offset, has_at, run_end, run_len};
use std::alloc::{AllocError, Global};

/// What may stand in a named part.
const INNER: ByteClass = ByteClass::Neither(b']', b'\n');

/// What stands inside a bracket.
#[derive(Clone, Copy, Debug)]
pub(crate) enum BracketMark<'a> {
    /// A byte that stands for itself.
    Plain(u8),
    /// An escape; no byte where an octal number is above 255.
    Escape(Option<u8>),
    /// `[:name:]`
    Class(&'a [u8]),
    /// `[.name.]` or `[=name=]`
    Collating,
}

/// The named part behind a `[`, and its size without that: it goes through the next `]`, which stands directly behind a
/// second byte of its kind. So many bytes stand behind its kind before the next `]` or newline.
#[tactic(auto, unfolding(crate::specs::Items::Marks::named_part))]
fn named_part(text: &[u8], size: usize) -> Option<(BracketMark<'_>, usize)>
    requires { size ≡ prefix_len is_inner (drop 1 text.now) }
    ensures value { sized_mark result ≡ spec.named_part text.now }
    ensures size { IfSome result (λ r. r.1 ≤ length text.now) }
{
    let [kind, rest @ ..] = text else {
        return None;
    };
    if size == 0 || !has_at(rest, size, b']') || !has_at(rest, size - 1, *kind) {
        return None;
    }
    match *kind {
        b':' => Some((BracketMark::Class(&rest[..size - 1]), size + 2)),
        b'.' | b'=' => Some((BracketMark::Collating, size + 2)),
        _ => None,
    }
}

/// The mark at the front of the text, and its size. So many bytes stand behind the first two before the next `]` or newline.
#[tactic(auto, unfolding(crate::specs::Items::Marks::mark))]
fn mark_of(text: &[u8], inner: usize) -> Option<(BracketMark<'_>, usize)>
    requires { inner ≡ prefix_len is_inner (drop 2 text.now) }
    ensures value { sized_mark result ≡ spec.mark text.now }
    ensures size { IfSome result (λ r. (0 < r.1) × (r.1 ≤ length text.now)) }
{
    let [first, rest @ ..] = text else {
        return None;
    };
    match *first {
        b'\n' | b']' => None,
        b'\\' => {
            let (byte, size) = escape(rest)?;
            Some((BracketMark::Escape(byte), size + 1))
        }
        b'[' => match named_part(rest, inner) {
            Some((part, size)) => Some((part, size + 1)),
            None => Some((BracketMark::Plain(b'['), 1)),
        },
        other => Some((BracketMark::Plain(other), 1)),
    }
}

/// The mark at the offset, and its size. The end of what may stand in a named part moves on with the offset.
fn mark_at<'a>(text: &'a [u8], at: usize, end: &mut usize) -> Option<(BracketMark<'a>, usize)>
    requires within { at ≤ length text.now }
    requires end { places.EndsRun is_inner text.now (at + 2) end.old }
    ensures value { sized_mark result ≡ spec.mark (drop at text.now) }
    ensures size { IfSome result (λ r. (0 < r.1) × (at + r.1 ≤ length text.now)) }
    ensures end { end.new ≡ places.run_end is_inner text.now (at + 2) }
{
    *end = run_end(text, INNER, at + 2, *end);
    mark_of(from_offset(text, at), *end - (at + 2))
}

/// Adds the marks from the front of the text on, and how many bytes they take.
fn push_marks<'a>(marks: &mut Vec<BracketMark<'a>>, text: &'a [u8]) -> Result<usize, AllocError>
    ensures list { OnOk result (AddsMarks text.now marks.old.items marks.new.items) }
    ensures size { IfOk result (λ n. n ≡ (steps spec.mark text.now).1) }
    ensures within { IfOk result (λ n. n ≤ length text.now) }
{
    let mut at = 0;
    let mut end = run_len(text, INNER);
    while let Some((mark, size)) = mark_at(text, at, &mut end) {
        marks.push(mark)?;
        at += size;
    }
    Ok(at)
}

/// The marks up to the closing `]`, and their size without it. A `]` stands for itself where it is the first.
#[tactic(auto, unfolding(crate::specs::Items::Marks::marks))]
pub(crate) fn marks(alloc: Global, text: &[u8]) -> Result<(Vec<BracketMark<'_>>, usize), AllocError>
    ensures value { IfOk result (λ r. (marks_of r.0.items, r.1) ≡ spec.marks text.now) }
    ensures size { IfOk result (λ r. r.1 ≤ length text.now) }
{
    let mut marks = Vec::new(alloc);
    if has_at(text, 0, b']') {
        marks.push(BracketMark::Plain(b']'))?;
        let size = push_marks(&mut marks, from_offset(text, 1))?;
        Ok((marks, 1 + size))
    } else {
        let size = push_marks(&mut marks, text)?;
        Ok((marks, size))
    }
}
