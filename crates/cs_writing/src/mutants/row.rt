// The lines of negatives of a base that differ in the token that their edit puts alone.

ghost use Rattle.std.specs.Prelude.{◌≡◌, IfOk, IfSome, IsTrue, drop, is_some, length, take};
ghost use Rattle.cs_manifest.specs.Output.Names.{IsNamedMark};
ghost use Rattle.cs_manifest.specs.Filling.Open.{mark_in, place_of};
ghost use Rattle.cs_writing.specs.Mutants.Rows.{HasTexts, IsOpenPlaced, IsRowOf, behind_place};

use crate::mutants::maker::Maker;
use crate::plan::{Side, put_text};
use cs_manifest::{OpenEdit, OpenLines, OpenNegative, OpenPair};
use std::alloc::{AllocError, Global};

/// The lines of the negatives with this edit and this pair, whatever token stands apart there.
#[derive(Drop)]
pub(crate) struct Row {
    pub edit: OpenEdit,
    pub pair: OpenPair,
    pub lines: OpenLines,
}

impl Row {
    /// The row of these negatives of a base. None where a token of the base beside the one that the edit puts has no lexeme.
    #[inline(never)]
    pub fn new(
        alloc: Global,
        maker: &Maker<'_>,
        edit: OpenEdit,
        pair: OpenPair,
    ) -> Result<Option<Row>, AllocError>
        requires placed { IsOpenPlaced (length maker.now.base) edit }
        requires named { IsNamedMark maker.now.tools.file (mark_in pair) }
        ensures row { IfOk result (λ row. IfSome row (IsRowOf maker.now edit pair)) }
        ensures there { IfOk result (λ row. HasTexts maker.now edit → IsTrue (is_some row)) }
    {
        let tools = maker.tools;
        let work = tools.work;
        let front = tokens_in_front(maker.base, edit);
        let back = tokens_behind(maker.base, edit);
        let mut text_front = Vec::new(alloc);
        let mut text_back = Vec::new(alloc);
        if !put_text(&mut text_front, work, Side::Behind, front)?
            || !put_text(&mut text_back, work, Side::Before, back)?
        {
            return Ok(None);
        }
        let open = OpenNegative {
            base: maker.number,
            edit,
            pair,
            front,
            back,
            text_front: &text_front,
            text_back: &text_back,
        };
        let lines = OpenLines::new(alloc, tools.yacc, &open)?;
        Ok(Some(Row { edit, pair, lines }))
    }
}

// The tokens in front of the one that the edit puts.
fn tokens_in_front(base: &[u16], edit: OpenEdit) -> &[u16]
    requires { IsOpenPlaced (length base.now) edit }
    ensures { result.now ≡ take (place_of edit) base.now }
{
    match edit {
        OpenEdit::Insert(place) | OpenEdit::Replace(place) => &base[..place as usize],
    }
}

// Those behind it.
fn tokens_behind(base: &[u16], edit: OpenEdit) -> &[u16]
    requires { IsOpenPlaced (length base.now) edit }
    ensures { result.now ≡ drop (behind_place edit) base.now }
{
    match edit {
        OpenEdit::Insert(place) => &base[place as usize..],
        OpenEdit::Replace(place) => &base[place as usize + 1..],
    }
}
