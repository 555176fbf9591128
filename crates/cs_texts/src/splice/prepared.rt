// Rendering lists of tokens that are near one whose text is known.

ghost use Rattle.std.specs.Prelude.{◌≡◌, ◌≤◌, IfOk, length};
ghost use Rattle.cs_texts.specs.Rendering.Rendering.{AreTokens};
ghost use Rattle.cs_texts.specs.Splice.Spliced.{RendersNear};

use crate::rendering::{RenderWork, render};
use crate::splice::marked::{Marked, Splice};
use crate::splice::spliced::Spliced;
use std::alloc::{AllocError, Global};
use std::marker::Model;

/// A list of tokens that was rendered, by which lists near it are rendered for less.
#[derive(Drop)]
pub struct Prepared<'a> {
    alloc: Global,
    work: &'a RenderWork<'a>,

    // None where the list has no text, or where a match of its scan isn't a lexeme.
    list: Option<Marked<'a>>,
}

impl<'a> Model for Prepared<'a> {
    ghost use Rattle.std.specs.Coded.{codes};
    ghost use Rattle.cs_pattern_parts.specs.contracts.tree.pattern.Pattern as pattern;
    ghost use Rattle.cs_texts.specs.declared.rendering.render_work.RenderWork.{RenderWork};

    ghost Value = { RenderWork };

    ghost coded = { Prim.hlevel (codes, pattern.the_row.coded) };

    ghost use Rattle.cs_texts.specs.Splice.Marked.{IfMarkedList};

    ghost view = { λ p. p.work.now };

    ghost invariant = { λ p. IfMarkedList p.work.now p.list };
}

impl<'a> Prepared<'a> {
    /// Renders the list, and keeps what renders those that are near it.
    pub fn new(
        alloc: Global,
        work: &'a RenderWork<'a>,
        tokens: &'a [u16],
    ) -> Result<Prepared<'a>, AllocError>
        requires tokens { AreTokens work.now.lexemes.now tokens.now }
        requires few { length tokens.now ≤ 1000001 }
        ensures { IfOk result (λ prepared. prepared ≡ work.now) }
    {
        let list = Marked::new(alloc, work, tokens)?;
        Ok(Prepared { alloc, work, list })
    }

    /// Renders a list of tokens; the middle of a text is put in place of what the buffer holds. The answer is that of
    /// `crate::rendering::render`, whatever list was prepared.
    ///
    /// Where the list is near the prepared one, it mostly scans what isn't as there alone, and takes no memory but the buffer's.
    pub fn render(&self, middle: &mut Vec<u8>, tokens: &[u16]) -> Result<Spliced<'_>, AllocError>
        requires tokens { AreTokens self.now.lexemes.now tokens.now }
        requires few { length tokens.now ≤ 1000001 }
        ensures { IfOk result (RendersNear self.now tokens.now middle.new.items) }
    {
        if let Some(list) = &self.list {
            if let Some(Splice { front, back }) = list.splice(middle, tokens)? {
                return Ok(Spliced::Around { front, back });
            }
        }
        let work = self.work;
        let rendered = render(
            self.alloc,
            work.scanner,
            work.lexemes,
            work.separator,
            tokens,
        )?;
        Ok(Spliced::Whole(rendered))
    }
}
