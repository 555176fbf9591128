// The classes of edits, and the texts of those that are written.

ghost use Rattle.std.specs.Prelude.{◌≡◌, ◌≤◌, All, IfOk, length};
ghost use Rattle.std.specs.List.{AllZip};
ghost use Rattle.cs_deep.specs.Writing.Judging.{CanJudge, HasLength, IsPlain, Judges};
ghost use Rattle.cs_mutate.specs.Edit.{IsPlaced};

use crate::edits::{Candidate, EditClass};
use cs_fan::{Counter, Crew, Gate, Work, fan};
use cs_member::{MOST_LENGTH, Recognizer};
use cs_mutate::{Edit, apply};
use cs_texts::{RenderWork, Rendered, render};
use std::alloc::{AllocError, Global};
use std::marker::Model;
use std::thread::Threads;

// So many candidates are a full batch, and so many workers share it. One worker does fewer: to start others takes longer.
const FULL: usize = 1_024;

const WORKERS: u16 = 4;

/// An edit and its class; where that is outside, the edited list and what came of its rendering.
#[derive(Drop)]
pub(crate) struct Judged {
    pub(crate) edit: Edit,
    pub(crate) class: EditClass,
    pub(crate) tokens: Vec<u16>,
    pub(crate) rendered: Option<Rendered>,
}

impl Model for Judged {
    ghost use Rattle.std.specs.Prelude.{option_map};
    ghost use Rattle.cs_deep.specs.Writing.Deep.{EditEntry};
    ghost use Rattle.cs_texts.specs.Rendering.Rendering.{rendering};

    ghost Value = { EditEntry };

    ghost view = { λ j. record {
      edit = j.edit;
      class = j.class;
      tokens = j.tokens.items;
      rendered = option_map rendering j.rendered;
    } };
}

// An edit of another class than outside.
fn plain(alloc: Global, edit: Edit, class: EditClass) -> Judged
    ensures { IsPlain edit class result }
{
    Judged {
        edit,
        class,
        tokens: Vec::new(alloc),
        rendered: None,
    }
}

// How many tokens the edited list has.
fn edited_length(length: usize, edit: &Edit) -> usize
    requires placed { IsPlaced length edit.now }
    requires short { length ≤ 1000000 }
    ensures { HasLength length edit.now result }
{
    match edit {
        Edit::Delete(_) => length - 1,
        Edit::Insert(..) => length + 1,
        Edit::Replace(..) | Edit::Swap(_) => length,
    }
}

/// The classes of edits of a base by a recognizer, and the texts of the edited lists that are outside.
#[derive(Clone, Copy)]
pub(crate) struct DeepWork<'a> {
    pub(crate) recognizer: &'a Recognizer<'a>,
    pub(crate) render: &'a RenderWork<'a>,
    pub(crate) base: &'a [u16],
}

impl<'a> Work<Candidate, Judged> for DeepWork<'a> {
    ghost use Rattle.cs_deep.specs.Writing.Judging.{CanJudge, Judges};

    ghost takes = { CanJudge };

    ghost answers = { λ work c j. Judges work c.edit j };

    fn one(&self, alloc: Global, item: &Candidate) -> Result<Judged, AllocError> {
        if item.negative {
            return Ok(plain(alloc, item.edit, EditClass::Negative));
        }
        if edited_length(self.base.len(), &item.edit) > MOST_LENGTH {
            return Ok(plain(alloc, item.edit, EditClass::Long));
        }
        let tokens = apply(alloc, self.base, &item.edit)?;
        if self.recognizer.accepts(alloc, &tokens)? {
            return Ok(plain(alloc, item.edit, EditClass::Sentence));
        }
        let render_by = self.render;
        let rendered = render(
            alloc,
            render_by.scanner,
            render_by.lexemes,
            render_by.separator,
            &tokens,
        )?;
        Ok(Judged {
            edit: item.edit,
            class: EditClass::Outside,
            tokens,
            rendered: Some(rendered),
        })
    }
}

/// What becomes of a base by each candidate, in order.
pub(crate) fn judge_batch<R: Threads + Sync, G: Gate + Sync>(
    crew: &Crew<'_, R, G>,
    alloc: Global,
    work: &DeepWork<'_>,
    batch: &[Candidate],
) -> Result<Vec<Judged>, AllocError>
    requires takes { All (CanJudge work.now) batch.now }
    requires few { length batch.now ≤ 1024 }
    ensures { IfOk result (λ judged.
        AllZip (λ c j. Judges work.now c.edit j) batch.now judged.items) }
{
    let workers = if batch.len() < FULL { 1 } else { WORKERS };
    let (counter, mut seat) = Counter::new(alloc, batch.len() as u32, workers)?;
    fan(crew.rt, alloc, batch, work, crew.gate, &counter, &mut seat)
}
