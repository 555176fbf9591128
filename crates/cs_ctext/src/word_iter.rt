//! The C words of a part of the bytes.

ghost use Rattle.std.specs.Prelude.{◌≡◌, ◌+◌, ◌<◌, ◌≤◌, ◌↔◌, [], ◌++◌, length, drop, take, IsNone};
ghost use Rattle.std.specs.Option.{option_to_list};
ghost use Rattle.cs_ctext.specs.Words.{HasWords};
ghost use Rattle.cs_ctext.specs.Scans as scans;

use crate::c_text::CText;
use cs_bytes::{ByteClass, from_offset, run_len, to_offset};
use std::marker::Model;

/// Where a C word stands: the bytes `from..to`.
#[derive(Clone, Copy, Debug, PartialEq, Eq)]
pub struct Word {
    pub from: usize,
    pub to: usize,
}

/// The words of a part that are still to be given, in order.
#[derive(Debug, Drop)]
pub struct WordIter<'a> {
    /// the bytes up to the part's end
    text: CText<'a>,
    at: usize,
}

impl<'a> Model for WordIter<'a> {
    ghost use Rattle.std.specs.Prelude.{◌≤◌, List, drop, length};
    ghost use Rattle.cs_ctext.specs.declared.word_iter.Word.{Word};
    ghost use Rattle.cs_ctext.specs.Scans.{words_of};

    ghost Value = { List Word };

    ghost view = { λ w. words_of w.at (drop w.at w.text) };

    ghost invariant = { λ w. w.at ≤ length w.text };
}

/// The C words of the bytes `from..to` outside comments and closed quoted constructs, in order, each once.
///
/// A C word is a longest run of letters, digits and `_` that doesn't begin with a digit; a run that begins with a digit is
/// no word as a whole. The part is a text of its own: what stands before `from` or behind `to` isn't looked at. So a quote
/// mark that is closed only behind `to` is a plain byte, and a `/*` that isn't closed before `to` takes the rest of the part.
pub fn words(bytes: &[u8], from: usize, to: usize) -> WordIter<'_>
    requires ordered { from ≤ to }
    requires within { to ≤ length bytes.now }
    ensures { HasWords from (drop from (take to bytes.now)) result }
{
    WordIter {
        text: CText::new(to_offset(bytes, to)),
        at: from,
    }
}

impl WordIter<'_> {
    /// The next word, or `None` where all were given.
    pub fn next(&mut self) -> Option<Word>
        ensures given { self.old ≡ option_to_list result ++ self.new }
        ensures finished { IsNone result ↔ (self.old ≡ []) }
    {
        let bytes = self.text.bytes();
        while self.at < bytes.len() {
            let from = self.at;
            self.at += piece_size(&mut self.text, from);
            if ByteClass::WordStart.has(bytes[from]) {
                return Some(Word { from, to: self.at });
            }
        }
        None
    }
}

/// The size of the run or part at `at`. An open comment takes the rest.
fn piece_size(text: &mut CText<'_>, at: usize) -> usize
    requires { at < length text.old }
    ensures size { result ≡ scans.piece_size (drop at text.old) }
    ensures within { (0 < result) × (at + result ≤ length text.old) }
    ensures text { text.new ≡ text.old }
{
    let bytes = text.bytes();
    if ByteClass::Word.has(bytes[at]) {
        return run_len(from_offset(bytes, at), ByteClass::Word);
    }
    text.part_size(at).unwrap_or(bytes.len() - at)
}
