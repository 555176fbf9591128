// A list of tokens with its text and the marks of its matches, and the texts of lists that are near it.

ghost use Rattle.std.specs.Prelude.{◌<◌, ◌≤◌, IfOk, IfSome, length};
ghost use Rattle.cs_texts.specs.Rendering.Rendering.{AreTokens};
ghost use Rattle.cs_texts.specs.Splice.Marked.{IfMarkedList, IsBack, IsFrontFor, IsMarkAt, IsMarkedList};
ghost use Rattle.cs_texts.specs.Splice.Spliced.{IfTold};

use crate::rendering::{RenderWork, Rendered, render};
use crate::splice::common::{same_back, same_front};
use crate::splice::marks::{TextMark, are_lexemes, marks_of};
use crate::splice::middle::put_middle;
use crate::splice::parts::{begins_with_part, from_place, up_to};
use crate::splice::step::arrives;
use std::alloc::{AllocError, Global};

/// A list of tokens with its text, and for each token the mark of the match that gives it.
#[derive(Drop)]
pub(crate) struct Marked<'a> {
    work: &'a RenderWork<'a>,
    tokens: &'a [u16],
    text: Vec<u8>,
    marks: Vec<TextMark>,
}

/// What a text has of the text of a list near its own, in front of what was put for it and behind that.
#[derive(Clone, Copy)]
pub(crate) struct Splice<'p> {
    pub(crate) front: &'p [u8],
    pub(crate) back: &'p [u8],
}

impl<'a> Marked<'a> {
    /// The list with its text. None where it has no text, or where a match of the text's scan isn't a lexeme.
    pub(crate) fn new(
        alloc: Global,
        work: &'a RenderWork<'a>,
        tokens: &'a [u16],
    ) -> Result<Option<Marked<'a>>, AllocError>
        requires tokens { AreTokens work.now.lexemes.now tokens.now }
        requires few { length tokens.now ≤ 1000001 }
        ensures { IfOk result (IfMarkedList work.now) }
    {
        let rendered = render(alloc, work.scanner, work.lexemes, work.separator, tokens)?;
        let Rendered::Text(text) = rendered else {
            return Ok(None);
        };
        let Some(marks) = marks_of(alloc, work.scanner, &text, tokens)? else {
            return Ok(None);
        };
        if !are_lexemes(work.lexemes, work.separator, tokens, &text, &marks) {
            return Ok(None);
        }
        Ok(Some(Marked {
            work,
            tokens,
            text,
            marks,
        }))
    }

    // The mark of the token at the place.
    fn mark(&self, place: usize) -> TextMark
        requires marked { IsMarkedList self.now }
        requires place { place < length self.now.tokens.now }
        ensures { IsMarkAt self.now place result }
    {
        self.marks[place]
    }

    // How many of the first so many tokens the scan need not go over again: a separator stays behind these where they are fewer.
    fn kept(&self, stays: usize, fewer: usize) -> usize
        requires marked { IsMarkedList self.now }
        requires stays { stays ≤ length self.now.tokens.now }
        ensures { result ≤ stays }
    {
        if stays == 0 {
            return 0;
        }
        let mut most = self.mark(stays - 1).end;
        if stays < fewer {
            most = most.saturating_add(self.work.separator.len());
        }
        for count in 0..stays {
            match self.mark(stays - 1 - count).read {
                Some(read) if read <= most => return stays - count,
                _ => {}
            }
        }
        0
    }

    // The text of the first so many tokens, where what is put behind it begins with the bytes that settle its scan.
    fn front(&self, count: usize, put: &[u8]) -> Option<&[u8]>
        requires marked { IsMarkedList self.now }
        requires count { count ≤ length self.now.tokens.now }
        ensures { IfSome result (λ front. IsFrontFor self.now count put.now front.now) }
    {
        if count == 0 {
            return Some(up_to(self.text.as_slice(), 0));
        }
        let TextMark { end, read, .. } = self.mark(count - 1);
        let read = read?;
        let text = self.text.as_slice();
        if begins_with_part(put, text, end, read) {
            Some(up_to(text, end))
        } else {
            None
        }
    }

    // The text of the last so many tokens.
    fn back(&self, count: usize) -> &[u8]
        requires marked { IsMarkedList self.now }
        requires count { count ≤ length self.now.tokens.now }
        ensures { IsBack self.now count result.now }
    {
        let text = self.text.as_slice();
        if count == 0 {
            from_place(text, text.len())
        } else {
            from_place(text, self.mark(self.tokens.len() - count).start)
        }
    }

    /// The text of a list of tokens, whose front and back are of this list's text, and whose middle is put in place of what the
    /// buffer holds. None where the text isn't told here, which doesn't say that there is none.
    ///
    /// It scans what isn't as in this list alone, and takes no memory but the buffer's.
    pub(crate) fn splice(
        &self,
        middle: &mut Vec<u8>,
        tokens: &[u16],
    ) -> Result<Option<Splice<'_>>, AllocError>
        requires marked { IsMarkedList self.now }
        requires tokens { AreTokens self.now.work.now.lexemes.now tokens.now }
        ensures { IfOk result (IfTold self.now.work.now tokens.now middle.new.items) }
    {
        let work = self.work;
        let stays = same_front(self.tokens, tokens);
        let behind = same_back(self.tokens, tokens, stays);
        let from = self.kept(stays, self.tokens.len().min(tokens.len()));
        let to = tokens.len() - behind;
        if !put_middle(middle, work.lexemes, work.separator, tokens, from, to)? {
            return Ok(None);
        }
        let Some(front) = self.front(from, middle) else {
            return Ok(None);
        };
        let back = self.back(behind);
        if arrives(work.scanner, middle, back, &tokens[from..to]) {
            Ok(Some(Splice { front, back }))
        } else {
            Ok(None)
        }
    }
}
