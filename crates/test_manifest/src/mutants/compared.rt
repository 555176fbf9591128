//! How the answers of lists near one that was prepared compare with their renderings.

ghost use Rattle.std.specs.Prelude.{◌≡◌, ◌≤◌, All, IsTrue, length};
ghost use Rattle.cs_grammar.specs.Grammar.{IsNumberOf};
ghost use Rattle.cs_writing.specs.Mutants.Makers.{CanRender};
ghost use Rattle.cs_texts.specs.Rendering.Rendering.{AreTokens};
ghost use Rattle.cs_texts.specs.Work.Renders.{TakesTokens};

use crate::mutants::near::near_lists;
use crate::mutants::work::with_work;
use cs_sample_files::Trouble;
use cs_texts::{Prepared, RenderWork, Rendered, RenderedParts, Spliced, render};
use std::alloc::{AllocError, Global};

/// How many lists have a text, of how many it was cut from the prepared list's, and how many were answered otherwise than they
/// are rendered.
#[derive(Clone, Copy, Debug)]
pub(crate) struct Counts {
    texts: u32,
    cut: u32,
    wrong: u32,
}

impl Counts {
    /// Whether there are texts, each of them cut from the prepared list's, and each answer is right.
    pub fn are_cut(&self) -> bool {
        self.wrong == 0 && self.cut == self.texts && self.texts > 0
    }

    /// Whether there are texts, none of them cut from the prepared list's, and each answer is right.
    pub fn are_whole(&self) -> bool {
        self.wrong == 0 && self.cut == 0 && self.texts > 0
    }
}

/// Whether the text is these parts, one behind another.
pub(crate) fn is_joined(text: &[u8], front: &[u8], middle: &[u8], back: &[u8]) -> bool {
    let behind = front.len().saturating_add(middle.len());
    text.len() == behind.saturating_add(back.len())
        && text.starts_with(front)
        && text[front.len()..].starts_with(middle)
        && text.ends_with(back)
}

// Whether the answer is what comes of the rendering.
fn is_same(answer: RenderedParts<'_>, rendered: &Rendered) -> bool {
    match (answer, rendered) {
        (
            RenderedParts::Text {
                front,
                middle,
                back,
            },
            Rendered::Text(text),
        ) => is_joined(text, front, middle, back),
        (RenderedParts::NoLexeme(token), Rendered::NoLexeme(other)) => token == *other,
        (RenderedParts::Differs { after }, Rendered::Differs { after: other }) => after == *other,
        _ => false,
    }
}

/// Whether a list is short, and each of its numbers that of a token.
pub(crate) fn is_short_list(numbers: &[u16], most: u16) -> bool
    ensures short { IsTrue result → length numbers.now ≤ 1000 }
    ensures tokens { IsTrue result → All (IsNumberOf most) numbers.now }
{
    numbers.len() <= 1_000 && numbers.iter().all(|number| 0 < *number && *number <= most)
}

// Counts a list.
fn compare(
    alloc: Global,
    work: &RenderWork<'_>,
    prepared: &Prepared<'_>,
    list: &[u16],
    counts: &mut Counts,
) -> Result<(), AllocError>
    requires tokens { AreTokens prepared.now.lexemes.now list.now }
    requires taken { TakesTokens work.now list.now }
{
    let mut middle = Vec::new(alloc);
    let spliced = prepared.render(&mut middle, list)?;
    let rendered = render(alloc, work.scanner, work.lexemes, work.separator, list)?;
    let is_text = matches!(rendered, Rendered::Text(_));
    let is_cut = matches!(spliced, Spliced::Around { .. });
    let is_wrong = !is_same(spliced.parts(&middle), &rendered);
    counts.texts = counts.texts.saturating_add(is_text as u32);
    counts.cut = counts.cut.saturating_add(is_cut as u32);
    counts.wrong = counts.wrong.saturating_add(is_wrong as u32);
    Ok(())
}

// Compares the answers of the lists.
fn compare_all(
    alloc: Global,
    work: &RenderWork<'_>,
    prepared: &Prepared<'_>,
    most: u16,
    lists: &[Vec<u16>],
) -> Result<Counts, Trouble>
    requires work { CanRender work.now most }
    requires near { prepared.now ≡ work.now }
{
    let mut counts = Counts {
        texts: 0,
        cut: 0,
        wrong: 0,
    };
    for list in lists {
        if !is_short_list(list, most) {
            return Err(Trouble::TooLong);
        }
        compare(alloc, work, prepared, list, &mut counts)?;
    }
    Ok(counts)
}

// Compares the answers of the lists near a list.
fn compare_by(
    alloc: Global,
    work: &RenderWork<'_>,
    most: u16,
    tokens: &[u16],
) -> Result<Counts, Trouble>
    requires work { CanRender work.now most }
{
    if !is_short_list(tokens, most) {
        return Err(Trouble::TooLong);
    }
    let lists = near_lists(alloc, tokens, most)?;
    let prepared = Prepared::new(alloc, work, tokens)?;
    compare_all(alloc, work, &prepared, most, &lists)
}

/// Compares the answers of the lists near a list, by the rules of these files.
pub(crate) fn compare_near(
    alloc: Global,
    yacc: &[u8],
    lex: &[u8],
    separator: &[u8],
    tokens: &[u16],
) -> Result<Counts, Trouble> {
    with_work(alloc, (yacc, lex), separator, |_yacc, work, most| {
        compare_by(alloc, work, most, tokens)
    })
}
