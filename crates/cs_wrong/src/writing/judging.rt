// The classes of slips, and the texts of the lists that are written.

ghost use Rattle.std.specs.Prelude.{◌≡◌, ◌≤◌, All, IfOk, length};
ghost use Rattle.std.specs.List.{AllZip};
ghost use Rattle.cs_wrong.specs.Slips.Found.{tokens_in};
ghost use Rattle.cs_wrong.specs.Writing.Judging.{CanJudge, HasTexts, Judges, RendersIf, TellsClass};

use crate::classes::{Candidate, SlipClass, class_of};
use crate::slips::{Slip, SlipList};
use cs_fan::{Counter, Crew, Gate, Work, fan};
use cs_member::Recognizer;
use cs_texts::{RenderWork, Rendered, render};
use std::alloc::{AllocError, Global};
use std::marker::Model;
use std::thread::Threads;

// So many candidates are a full batch, and so many workers share it. One worker does fewer: to start others takes longer.
const FULL: usize = 1_024;

const WORKERS: u16 = 4;

/// A slip, its class and its list; and where that is written, what came of its rendering.
#[derive(Drop)]
pub(crate) struct Judged {
    pub(crate) slip: Slip,
    pub(crate) class: SlipClass,
    pub(crate) tokens: Vec<u16>,
    pub(crate) rendered: Option<Rendered>,
}

impl Model for Judged {
    ghost use Rattle.std.specs.Prelude.{option_map};
    ghost use Rattle.cs_texts.specs.Rendering.Rendering.{rendering};
    ghost use Rattle.cs_wrong.specs.Writing.Text.{SlipEntry};

    ghost Value = { SlipEntry };

    ghost view = { λ j. record {
      slip = j.slip;
      class = j.class;
      tokens = j.tokens.items;
      rendered = option_map rendering j.rendered;
    } };
}

/// The classes of slips by a recognizer of their grammar, and the texts of lists.
#[derive(Clone, Copy)]
pub(crate) struct WrongWork<'a> {
    pub(crate) recognizer: &'a Recognizer<'a>,
    pub(crate) render: &'a RenderWork<'a>,
}

// What comes of the rendering of a list, where its class is one that is written.
fn text_of(
    alloc: Global,
    work: &RenderWork<'_>,
    class: SlipClass,
    list: &[u16],
) -> Result<Option<Rendered>, AllocError>
    requires { HasTexts work.now list.now }
    ensures { IfOk result (RendersIf work.now class list.now) }
{
    match class {
        SlipClass::Pair { .. } | SlipClass::Outside => {
            let rendered = render(alloc, work.scanner, work.lexemes, work.separator, list)?;
            Ok(Some(rendered))
        }
        SlipClass::Nothing | SlipClass::Large | SlipClass::Again => Ok(None),
        SlipClass::Long | SlipClass::Sentence => Ok(None),
    }
}

impl<'a> WrongWork<'a> {
    // The class of what a slip has.
    fn class(&self, alloc: Global, item: &Candidate) -> Result<SlipClass, AllocError>
        requires { CanJudge self.now item.now }
        ensures { IfOk result (TellsClass self.now item.now) }
    {
        match &item.list {
            SlipList::Nothing => Ok(SlipClass::Nothing),
            SlipList::Large => Ok(SlipClass::Large),
            SlipList::Tokens(list) => {
                if item.again {
                    return Ok(SlipClass::Again);
                }
                class_of(alloc, self.recognizer, list, item.at)
            }
        }
    }
}

// The list of a slip once more.
fn copy_of(alloc: Global, list: &SlipList) -> Result<Vec<u16>, AllocError>
    ensures { IfOk result (λ tokens. tokens.items ≡ tokens_in list.now) }
{
    match list {
        SlipList::Nothing | SlipList::Large => Ok(Vec::new(alloc)),
        SlipList::Tokens(tokens) => Vec::from_slice(alloc, tokens),
    }
}

impl<'a> Work<Candidate, Judged> for WrongWork<'a> {
    ghost use Rattle.cs_wrong.specs.Writing.Judging.{CanJudge, Judges};

    ghost takes = { CanJudge };

    ghost answers = { λ work c j. Judges work c j };

    fn one(&self, alloc: Global, item: &Candidate) -> Result<Judged, AllocError> {
        let class = self.class(alloc, item)?;
        let tokens = copy_of(alloc, &item.list)?;
        let rendered = text_of(alloc, self.render, class, &tokens)?;
        Ok(Judged {
            slip: item.slip,
            class,
            tokens,
            rendered,
        })
    }
}

/// What becomes of each candidate, in order.
pub(crate) fn judge_batch<R: Threads + Sync, G: Gate + Sync>(
    crew: &Crew<'_, R, G>,
    alloc: Global,
    work: &WrongWork<'_>,
    batch: &[Candidate],
) -> Result<Vec<Judged>, AllocError>
    requires takes { All (CanJudge work.now) batch.now }
    requires few { length batch.now ≤ 1024 }
    ensures { IfOk result (λ judged. AllZip (Judges work.now) batch.now judged.items) }
{
    let workers = if batch.len() < FULL { 1 } else { WORKERS };
    let (counter, mut seat) = Counter::new(alloc, batch.len() as u32, workers)?;
    fan(crew.rt, alloc, batch, work, crew.gate, &counter, &mut seat)
}
