// The texts of goals that were placed.

ghost use Rattle.std.specs.Prelude.{◌≤◌, IfOk, IfSome, length};
ghost use Rattle.cs_texts.specs.Rendering.ByWork.{IsRenderedBy};
ghost use Rattle.cs_texts.specs.Rendering.Rendering.{AreTokens, rendering};
ghost use Rattle.cs_texts.specs.Splice.Apart.{AreApart, ScanBack};
ghost use Rattle.cs_texts.specs.Work.Renders.{TakesTokens};
ghost use Rattle.cs_writing.specs.Plan.Placing.{AreRendered, AreTaken, HaveSoMany, IsTextBy};

use crate::plan::joining::{Side, put_text};
use crate::plan::placing::Placed;
use crate::plan::plan::Means;
use cs_fan::{Counter, Crew, Gate, Work, fan};
use cs_texts::{Apart, RenderWork, Rendered, render};
use std::alloc::{AllocError, Global};
use std::thread::Threads;

// So many workers share a batch.
const WORKERS: u16 = 4;

/// What the tokens of goals are rendered with, and which of the tokens stand apart in texts.
#[derive(Clone, Copy)]
struct TextWork<'a> {
    work: &'a RenderWork<'a>,
    apart: &'a Apart,
}

/// The work takes goals whose tokens can be rendered, and renders these where that is asked for.
impl<'a> Work<Placed, Option<Rendered>> for TextWork<'a> {
    ghost use Rattle.cs_writing.specs.Plan.Made.{is_asked};
    ghost use Rattle.cs_writing.specs.Plan.Placing.{CanTake, IsRenderedIf};

    ghost takes = { λ texts p. CanTake texts p.tokens.items };

    ghost answers = { λ texts p r.
        IsRenderedIf (is_asked p.verdict p.shared) texts.work.now p.tokens.items r };

    fn one(&self, alloc: Global, item: &Placed) -> Result<Option<Rendered>, AllocError> {
        if !item.is_asked() {
            return Ok(None);
        }
        let rendered = rendered_by(alloc, self, &item.tokens)?;
        Ok(Some(rendered))
    }
}

// The rendering of tokens. Where each of them stands apart no scan is needed.
fn rendered_by(alloc: Global, texts: &TextWork<'_>, tokens: &[u16]) -> Result<Rendered, AllocError>
    requires takes { TakesTokens texts.now.work.now tokens.now }
    requires scan { ScanBack texts.now.work.now texts.now.apart.now }
    ensures { IfOk result (λ r. IsRenderedBy texts.now.work.now tokens.now (rendering r)) }
{
    if let Some(text) = text_apart(alloc, texts, tokens)? {
        return Ok(Rendered::Text(text));
    }
    let work = texts.work;
    render(alloc, work.scanner, work.lexemes, work.separator, tokens)
}

// The text of tokens that each stand apart. None where some token doesn't, or where there is none.
fn text_apart(
    alloc: Global,
    texts: &TextWork<'_>,
    tokens: &[u16],
) -> Result<Option<Vec<u8>>, AllocError>
    requires tokens { AreTokens texts.now.work.now.lexemes.now tokens.now }
    requires scan { ScanBack texts.now.work.now texts.now.apart.now }
    ensures { IfOk result (λ text. IfSome text (IsTextBy texts.now.work.now tokens.now)) }
{
    let Some(room) = room_apart(texts, tokens) else {
        return Ok(None);
    };
    let Some((last, front)) = tokens.split_last() else {
        return Ok(None);
    };
    let Some(lexeme) = texts.work.lexemes.get(*last) else {
        return Ok(None);
    };
    let mut text = Vec::with_capacity(alloc, room)?;
    if !put_text(&mut text, texts.work, Side::Behind, front)? {
        return Ok(None);
    }
    text.extend_from_slice(lexeme)?;
    Ok(Some(text))
}

// Room for the text of tokens that each stand apart. None where some token doesn't.
fn room_apart(texts: &TextWork<'_>, tokens: &[u16]) -> Option<usize>
    requires { AreTokens texts.now.work.now.lexemes.now tokens.now }
    ensures { IfSome result (λ _. AreApart texts.now.apart.now tokens.now) }
{
    let mut room = 0usize;
    for token in tokens {
        if !texts.apart.has(*token) {
            return None;
        }
        let lexeme = texts.work.lexemes.get(*token)?;
        room = room.saturating_add(lexeme.len() + texts.work.separator.len());
    }
    Some(room)
}

/// What comes of the rendering of each goal's tokens, in order. Without means nothing is rendered, and nothing comes. The
/// grammar has so many tokens.
pub(crate) fn render_placed<R: Threads + Sync, G: Gate + Sync>(
    crew: &Crew<'_, R, G>,
    alloc: Global,
    means: Option<Means<'_>>,
    tokens: u16,
    placed: &[Placed],
) -> Result<Vec<Option<Rendered>>, AllocError>
    requires takes { AreTaken means placed.now }
    requires tokens { HaveSoMany means tokens }
    requires few { length placed.now ≤ 1024 }
    ensures { IfOk result (λ rendered. AreRendered means.entry placed.now rendered.items) }
{
    match means {
        None => Ok(Vec::new(alloc)),
        Some(means) => {
            let work = means.work;
            let apart = Apart::new(alloc, work, tokens)?;
            let texts = TextWork {
                work,
                apart: &apart,
            };
            let (counter, mut seat) = Counter::new(alloc, placed.len() as u32, WORKERS)?;
            fan(
                crew.rt, alloc, placed, &texts, crew.gate, &counter, &mut seat,
            )
        }
    }
}
