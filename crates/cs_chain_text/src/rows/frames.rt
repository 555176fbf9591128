// The lines of chains that differ in the inner rule alone, but for their numbers, that rule and its node.

ghost use Rattle.cs_chain.specs.Chains.Chain.{IsChain};
ghost use Rattle.cs_chain_text.specs.Rows.Around.{Finds};
ghost use Rattle.cs_chain_text.specs.Rows.Rows.{AreAround, AreFrameLines, HasFrameParts};

use crate::rows::around::{Around, tokens_around};
use crate::rows::parts::{are_named, before_piece, end_piece, head_piece, middle_piece};
use cs_chain::{Chain, Frame};
use cs_least::{Cost, Embeds};
use cs_manifest::Piece;
use cs_yacc::YaccFile;
use std::alloc::{AllocError, Global};

// A part of these lines has at most so many bytes.
const MOST: usize = 4_096;

// What such chains have in common, and their lines but for what they haven't.
#[derive(Drop)]
pub(crate) struct FrameLines {
    pub(crate) chain: Chain,
    pub(crate) frame: Frame,
    pub(crate) around: Around,
    // Behind the number of the goal.
    pub(crate) head: Piece,
    // Between the size and the code of the inner node.
    pub(crate) before: Piece,
    // Between that code and the tokens of the inner node.
    pub(crate) middle: Piece,
    // Behind these tokens.
    pub(crate) end: Piece,
}

// The tokens around the inner node, where the frame has a size.
fn around_of(alloc: Global, embeds: &Embeds, frame: &Frame) -> Result<Option<Around>, AllocError>
    ensures { Finds (AreAround embeds.now.grammar frame.now) result }
{
    match frame.cost {
        Cost::Least(_) => tokens_around(
            alloc,
            embeds.grammar(),
            frame.before.rules(),
            frame.behind.rules(),
        ),
        _ => Ok(Some(Around {
            left: 0,
            first: Vec::new(alloc),
            last: Vec::new(alloc),
        })),
    }
}

impl FrameLines {
    // Those of a chain of the grammar, and of each that differs in the inner rule alone. None where a part is long.
    pub(crate) fn new(
        alloc: Global,
        file: &YaccFile,
        embeds: &Embeds,
        chain: &Chain,
    ) -> Result<Option<FrameLines>, AllocError>
        requires { IsChain embeds.now.grammar chain.now }
        ensures { Finds (AreFrameLines file.now embeds.now) result }
    {
        let frame = Frame::new(alloc, embeds, chain)?;
        let Some(around) = around_of(alloc, embeds, &frame)? else {
            return Ok(None);
        };
        with_parts(alloc, file, *chain, frame, around)
    }
}

// The lines with their parts.
fn with_parts(
    alloc: Global,
    file: &YaccFile,
    chain: Chain,
    frame: Frame,
    around: Around,
) -> Result<Option<FrameLines>, AllocError>
    ensures { Finds (HasFrameParts file.now chain frame around) result }
{
    if !are_named(file, &around.first) || !are_named(file, &around.last) {
        return Ok(None);
    }
    let Some(head) = head_piece(alloc, file, chain, MOST)? else {
        return Ok(None);
    };
    let Some(before) = before_piece(alloc, file, frame.before.rules(), MOST)? else {
        return Ok(None);
    };
    let Some(middle) = middle_piece(alloc, file, frame.behind.rules(), &around.first, MOST)? else {
        return Ok(None);
    };
    let Some(end) = end_piece(alloc, file, &around.last, MOST)? else {
        return Ok(None);
    };
    Ok(Some(FrameLines {
        chain,
        frame,
        around,
        head,
        before,
        middle,
        end,
    }))
}
