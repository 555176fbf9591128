//! C text that is walked over from front to back.

ghost use Rattle.std.specs.Prelude.{◌≡◌, ℕ, ◌+◌, ◌-◌, ◌^◌, ◌<◌, ◌≤◌, Some, None, length, drop, slice_get, IsTrue, IfSome, IfNone, IfOk, IfErr, OnErr, IsSomeAnd};
ghost use Rattle.cs_ctext.specs.Marks as marks;
ghost use Rattle.cs_ctext.specs.Comments.{IsOpenComment};
ghost use Rattle.cs_ctext.specs.Quotes.{IsQuoted};
ghost use Rattle.cs_ctext.specs.Blocks.{BeginsPart};
ghost use Rattle.cs_ctext.specs.Scans as scans;
ghost use Rattle.cs_ctext.specs.Unclosed.{NoneCloses};

use crate::comment::{comment_size, opens};
use crate::quoted::{Rest, rest_of};
use cs_bytes::from_offset;
use std::marker::Model;

/// Quote marks of one kind at `from..to`, none of which is closed on its line.
#[derive(Clone, Copy, Debug)]
struct Unclosed {
    from: usize,
    to: usize,
}

/// C text that is walked over from front to back; contracts see it as its bytes.
///
/// A quote mark that isn't closed is looked at up to its line's end, and so are all equal marks before that end: where
/// the first isn't closed, they aren't either. The walk keeps that, and so takes time linear in the text.
#[derive(Debug, Drop)]
pub struct CText<'a> {
    bytes: &'a [u8],
    single: Unclosed,
    double: Unclosed,
}

impl<'a> Model for CText<'a> {
    ghost use Rattle.std.specs.Prelude.{List, ℕ};
    ghost use Rattle.cs_bytes.specs.Names.{quote, double_quote};
    ghost use Rattle.cs_ctext.specs.Unclosed.{NoneCloses};

    ghost Value = { List ℕ };

    ghost view = { λ c. c.bytes.now };

    ghost invariant = { λ c. NoneCloses quote c.bytes.now c.single.from c.single.to
        × NoneCloses double_quote c.bytes.now c.double.from c.double.to };
}

impl<'a> CText<'a> {
    /// The bytes as C text.
    pub fn new(bytes: &'a [u8]) -> Self
        ensures { result ≡ bytes.now }
    {
        let none = Unclosed { from: 0, to: 0 };
        CText {
            bytes,
            single: none,
            double: none,
        }
    }

    /// The bytes of the text.
    pub fn bytes(&self) -> &'a [u8]
        ensures { result.now ≡ self.now }
    {
        self.bytes
    }

    /// Skips the quoted construct that begins at `at`, as the function of this name does.
    pub fn skip_quoted(&mut self, at: usize) -> Option<usize>
        requires { IsSomeAnd (slice_get self.old at) (λ mark. IsTrue (marks.is_quote mark)) }
        ensures closed { IfSome result (λ end. IsQuoted (drop at self.old) (end - at)) }
        ensures within { IfSome result (λ end. (at < end) × (end ≤ length self.old)) }
        ensures unclosed { IfNone result ((size : ℕ) → ¬ IsQuoted (drop at self.old) size) }
        ensures text { self.new ≡ self.old }
    {
        let size = self.quoted_size(at)?;
        Some(at + size)
    }

    /// Skips the comment, closed quoted construct or other byte that begins at `at`, and answers the offset behind it.
    ///
    /// A quote mark that isn't closed on its line is another byte, and so is a `/` that opens no comment. `None` comes
    /// exactly where a comment begins at `at` that isn't closed.
    pub fn skip_part(&mut self, at: usize) -> Option<usize>
        requires { at < length self.old }
        ensures part { IfSome result (λ end. BeginsPart (drop at self.old) (end - at)) }
        ensures within { IfSome result (λ end. (at < end) × (end ≤ length self.old)) }
        ensures unclosed { IfNone result (IsOpenComment (drop at self.old)) }
        ensures text { self.new ≡ self.old }
    {
        let size = self.part_size(at)?;
        Some(at + size)
    }

    /// The size of the comment, closed quoted construct or other byte at `at`; `None` where an open comment stands there.
    pub(crate) fn part_size(&mut self, at: usize) -> Option<usize>
        requires { at < length self.old }
        ensures size { result ≡ scans.part_size (drop at self.old) }
        ensures within { IfSome result (λ size. (0 < size) × (at + size ≤ length self.old)) }
        ensures fits { IfSome result (λ size. at + size < 2 ^ 64) }
        ensures text { self.new ≡ self.old }
    {
        let text = from_offset(self.bytes, at);
        if opens(text, 0) {
            return comment_size(text);
        }
        Some(self.quoted_size(at).unwrap_or(1))
    }

    /// The size of the closed quoted construct at `at`, where there is one.
    fn quoted_size(&mut self, at: usize) -> Option<usize>
        requires { at < length self.old }
        ensures size { result ≡ scans.quoted_size (drop at self.old) }
        ensures within { IfSome result (λ size. (0 < size) × (at + size ≤ length self.old)) }
        ensures fits { IfSome result (λ size. at + size < 2 ^ 64) }
        ensures text { self.new ≡ self.old }
    {
        let mark = self.bytes[at];
        let known = match mark {
            b'\'' => self.single,
            b'"' => self.double,
            _ => return None,
        };
        match size_of(self.bytes, at, mark, known) {
            Ok(size) => Some(size),
            Err(unclosed) => {
                if mark == b'\'' {
                    self.single = unclosed;
                } else {
                    self.double = unclosed;
                }
                None
            }
        }
    }
}

/// The size of the closed quoted construct that begins with the mark at `at`, or equal marks that aren't closed, this one
/// among them. Of such marks those of `known` are known.
#[tactic(auto, using(cs_bytes::proofs::Fronts::got_within))]
fn size_of(bytes: &[u8], at: usize, mark: u8, known: Unclosed) -> Result<usize, Unclosed>
    requires stands { slice_get bytes.now at ≡ Some mark }
    requires quote { IsTrue (marks.is_quote mark) }
    requires known { NoneCloses mark bytes.now known.from known.to }
    ensures closed { IfOk result (λ size. Some size ≡ scans.quoted_size (drop at bytes.now)) }
    ensures within { IfOk result (λ size. (0 < size) × (at + size ≤ length bytes.now)) }
    ensures unclosed { OnErr result (scans.quoted_size (drop at bytes.now) ≡ None) }
    ensures others { IfErr result (λ u. NoneCloses mark bytes.now u.from u.to) }
{
    if known.from <= at && at < known.to {
        return Err(known);
    }
    match rest_of(from_offset(bytes, at + 1), mark) {
        Rest::Closed(size) => Ok(size + 1),
        Rest::Unclosed(end) => Err(Unclosed {
            from: at,
            to: at + 1 + end,
        }),
    }
}
