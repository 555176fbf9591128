// The rows that negatives are filled in.

ghost use Rattle.std.specs.Prelude.{◌↔◌, IfOk, IsTrue, length};
ghost use Rattle.cs_manifest.specs.Output.Names.{IsNamedMark};
ghost use Rattle.cs_manifest.specs.Filling.Open.{mark_in};
ghost use Rattle.cs_writing.specs.Mutants.Rows.{AreNoRows, AreRows, HasRow, HasTexts, IsLentRow, IsOpenPlaced, IsPutIn};
ghost use Rattle.cs_writing.specs.Mutants.Rows.{row_for};

use crate::mutants::maker::Maker;
use crate::mutants::row::Row;
use cs_manifest::{OpenEdit, OpenPair};
use std::alloc::{AllocError, Global};

/// The last row in which a token stands behind its pair's other mark, and the last in which one stands in front of that.
///
/// Of the negatives that put a token at one place, those of the two rows come by turns.
#[derive(Drop)]
pub(crate) struct Rows {
    pub behind: Option<Row>,
    pub before: Option<Row>,
}

impl Rows {
    /// No rows.
    pub fn new() -> Rows
        ensures { AreNoRows result }
    {
        Rows {
            behind: None,
            before: None,
        }
    }

    /// The row of pairs as this one.
    #[inline(always)]
    pub fn get(&self, pair: OpenPair) -> Option<&Row>
        ensures { IsLentRow (row_for self.now pair) result }
    {
        match pair {
            OpenPair::Behind(_) => self.behind.as_ref(),
            OpenPair::Before(_) => self.before.as_ref(),
        }
    }

    // Puts a row in place of that of pairs as this one.
    fn put(&mut self, row: Option<Row>, pair: OpenPair)
        ensures { IsPutIn self.old pair row self.new }
    {
        match pair {
            OpenPair::Behind(_) => self.behind = row,
            OpenPair::Before(_) => self.before = row,
        }
    }

    // Whether the row of pairs as this one is that of these negatives.
    #[inline(always)]
    fn has(&self, edit: OpenEdit, pair: OpenPair) -> bool
        ensures { IsTrue result ↔ HasRow self.now edit pair }
    {
        match self.get(pair) {
            Some(row) => row.edit == edit && row.pair == pair,
            None => false,
        }
    }

    /// Sees to it that the row of these negatives of a base is there. False where they have none, as `Row::new` tells.
    #[inline(always)]
    pub fn settle(
        &mut self,
        alloc: Global,
        maker: &Maker<'_>,
        edit: OpenEdit,
        pair: OpenPair,
    ) -> Result<bool, AllocError>
        requires placed { IsOpenPlaced (length maker.now.base) edit }
        requires named { IsNamedMark maker.now.tools.file (mark_in pair) }
        requires rows { AreRows maker.now self.old }
        ensures rows { AreRows maker.now self.new }
        ensures has { IfOk result (λ has. IsTrue has → HasRow self.new edit pair) }
        ensures there { IfOk result (λ has. HasTexts maker.now edit → IsTrue has) }
    {
        if self.has(edit, pair) {
            return Ok(true);
        }
        let row = Row::new(alloc, maker, edit, pair)?;
        let has = row.is_some();
        self.put(row, pair);
        Ok(has)
    }
}
