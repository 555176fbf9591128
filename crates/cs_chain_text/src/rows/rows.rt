// The lines of chains, put together of parts.

ghost use Rattle.std.specs.Prelude.{◌≡◌, All, IfSome, IsTrue, length};
ghost use Rattle.cs_io.specs.Lines.{Writes};
ghost use Rattle.cs_manifest.specs.Output.Putting.{Puts};
ghost use Rattle.cs_chain.specs.Chains.Chain.{with_inner};
ghost use Rattle.cs_chain_text.specs.Rows.Around.{Finds};
ghost use Rattle.cs_chain_text.specs.Progress.{CanCount, IsCounted, rows_lines};
ghost use Rattle.cs_chain_text.specs.Rows.Rows.{AreFrameLines, AreRowsOf, IsRow, IsRowOf, StandsIn, row_entries, row_lines, tree_parts};

use crate::entries::Tally;
use crate::rows::cores::{CoreLines, Cores};
use crate::rows::frames::FrameLines;
use cs_chain::{Chain, is_beside};
use cs_io::{Sink, SinkError};
use cs_least::Cost;
use cs_manifest::{LINE_LENGTH, Numeral, Output};
use std::alloc::{AllocError, Global};

// A chain: what it has in common with others, its inner node, and what both cost together.
#[derive(Clone, Copy)]
pub(crate) struct Row<'a> {
    pub(crate) frame: &'a FrameLines,
    pub(crate) core: &'a CoreLines,
    pub(crate) cost: Cost,
}

// Whether the tokens of the inner node stand where the hole of the frame is: its left side does, where both have a size.
fn fits(frame: &FrameLines, core: &CoreLines, cost: Cost) -> bool
    ensures { IsTrue result → StandsIn frame.now core.now cost }
{
    match cost {
        Cost::Least(_) => core.left == frame.around.left,
        _ => true,
    }
}

// Whether the chain has the frame and the inner node.
fn is_of(frame: &FrameLines, core: &CoreLines, chain: &Chain) -> bool
    ensures { IsTrue result → chain.now ≡ with_inner frame.now.chain core.now.rule }
{
    if core.rule != chain.inner {
        return false;
    }
    is_beside(&frame.chain, chain)
}

// The row of a chain, where its parts are kept.
fn row_of<'c>(cores: &'c Cores<'_>, frame: &'c FrameLines, chain: &Chain) -> Option<Row<'c>>
    requires { AreFrameLines cores.now.file cores.now.of frame.now }
    ensures { IfSome result (IsRowOf cores.now chain.now) }
{
    let core = cores.get(chain.inner)?;
    if !is_of(frame, core, chain) {
        return None;
    }
    let cost = cores.plus(frame.frame.cost, core.core.cost);
    if !fits(frame, core, cost) {
        return None;
    }
    Some(Row { frame, core, cost })
}

// The rows of chains. None where the parts of one aren't kept.
pub(crate) fn rows_of<'c>(
    alloc: Global,
    cores: &'c Cores<'_>,
    frame: &'c FrameLines,
    chains: &[Chain],
) -> Result<Option<Vec<Row<'c>>>, AllocError>
    requires { AreFrameLines cores.now.file cores.now.of frame.now }
    ensures { Finds (λ rows. AreRowsOf cores.now chains.now rows.items) result }
{
    let mut rows = Vec::with_capacity(alloc, chains.len())?;
    for chain in chains {
        let Some(row) = row_of(cores, frame, chain) else {
            return Ok(None);
        };
        rows.push(row)?;
    }
    Ok(Some(rows))
}

/// Writes the lines of rows behind those that were counted, and counts them.
pub(crate) fn write_rows<S: Sink>(
    sink: &mut S,
    cores: &Cores<'_>,
    tally: &mut Tally,
    rows: &[Row<'_>],
) -> Result<(), SinkError>
    requires rows { All (IsRow cores.now) rows.now }
    requires few { CanCount tally.old (length rows.now) }
    ensures text { Writes S.Sink result
        (rows_lines cores.now tally.old rows.now) sink.old sink.new }
    ensures counted { IsCounted (row_entries rows.now) tally.old tally.new }
{
    let mut line = [0u8; LINE_LENGTH];
    let mut output = Output::new(sink, &mut line, 0);
    put_rows(&mut output, cores, tally, rows);
    output.end()?;
    Ok(())
}

fn put_rows<S: Sink>(
    output: &mut Output<'_, S>,
    cores: &Cores<'_>,
    tally: &mut Tally,
    rows: &[Row<'_>],
)
    requires rows { All (IsRow cores.now) rows.now }
    requires few { CanCount tally.old (length rows.now) }
    ensures lines { Puts S.Sink (rows_lines cores.now tally.old rows.now) output.old output.new }
    ensures counted { IsCounted (row_entries rows.now) tally.old tally.new }
{
    let mut number = Numeral::new(tally.goals);
    let mut size = Numeral::new(0);
    for row in rows {
        tally.count_cost(row.cost);
        number.advance();
        put_row(output, cores, &number, &mut size, row);
    }
}

// Puts the lines of a row, with this number. The numeral has the size that was put last, which most rows have too.
#[inline(always)]
fn put_row<S: Sink>(
    output: &mut Output<'_, S>,
    cores: &Cores<'_>,
    number: &Numeral,
    last: &mut Numeral,
    row: &Row<'_>,
)
    requires { IsRow cores.now row.now }
    ensures { Puts S.Sink (row_lines cores.now number.now row.now) output.old output.new }
{
    output.put(b"goal ");
    output.put_numeral(number);
    output.put_piece(&row.frame.head);
    output.put_piece(&row.core.number);
    match row.cost {
        Cost::Never => output.put(b" infeasible\n"),
        Cost::Large => output.put(b" large\n"),
        Cost::Least(size) => {
            set_numeral(last, size as u64);
            put_tree(output, row, &*last);
        }
    }
}

// Makes a numeral this number.
#[inline(always)]
fn set_numeral(numeral: &mut Numeral, number: u64)
    ensures { numeral.new ≡ number }
{
    if numeral.number() != number {
        *numeral = Numeral::new(number);
    }
}

// Puts the size, and the lines of the derivation and its tokens.
#[inline(always)]
fn put_tree<S: Sink>(output: &mut Output<'_, S>, row: &Row<'_>, size: &Numeral)
    ensures { Puts S.Sink (tree_parts row.now size.now) output.old output.new }
{
    output.put(b" size ");
    output.put_numeral(size);
    output.put_piece(&row.frame.before);
    output.put_piece(&row.core.code);
    output.put_piece(&row.frame.middle);
    output.put_piece(&row.core.names);
    output.put_piece(&row.frame.end);
}
