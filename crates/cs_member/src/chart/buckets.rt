// Rows by what their items await.

ghost use Rattle.std.specs.Prelude.{◌≡◌, ◌<◌, ◌+◌, Some, IfOk, OnOk, length, slice_get};
ghost use Rattle.cs_member.specs.Tables.Adding.{IsAdded};
ghost use Rattle.cs_member.specs.Tables.Asked.{AreEmptyLists};
ghost use Rattle.cs_member.specs.Chart.Buckets.{AreBuckets, IsBucket, rows_in};

use crate::chart::chart::Row;
use crate::tables::add_at;
use std::alloc::{AllocError, Global};

// Rows by number, where few numbers have any.
#[derive(Debug, Drop)]
pub(crate) struct Buckets {
    // By number: where its list is.
    pub(crate) places: Vec<u16>,
    // The first is empty, and that of all numbers without rows. Each other one is that of one number.
    pub(crate) lists: Vec<Vec<Row>>,
}

impl Buckets {
    // No rows, for the numbers up to the last.
    pub(crate) fn new(alloc: Global, last: u16) -> Result<Buckets, AllocError>
        ensures buckets { IfOk result AreBuckets }
        ensures size { IfOk result (λ buckets. length (rows_in buckets) ≡ last + 1) }
        ensures empty { IfOk result (λ buckets. AreEmptyLists (rows_in buckets)) }
    {
        let places = vec![in alloc; 0u16; last as usize + 1]?;
        let mut lists = Vec::new(alloc);
        lists.push(Vec::new(alloc))?;
        Ok(Buckets { places, lists })
    }

    // The rows of a number.
    pub(crate) fn rows(&self, number: u16) -> &[Row]
        requires buckets { AreBuckets self.now }
        requires number { number < length (rows_in self.now) }
        ensures { IsBucket self.now number result.now }
    {
        let place = self.places[number as usize];
        &self.lists[place as usize]
    }

    // Puts a row last among those of a number.
    pub(crate) fn add(&mut self, alloc: Global, number: u16, row: Row) -> Result<(), AllocError>
        requires buckets { AreBuckets self.old }
        requires number { number < length (rows_in self.old) }
        ensures buckets { OnOk result (AreBuckets self.new) }
        ensures added { OnOk result (IsAdded number row (rows_in self.old) (rows_in self.new)) }
    {
        let place = self.places[number as usize];
        if place == 0 {
            self.add_first(alloc, number, row)?;
            return Ok(());
        }
        add_at(&mut self.lists, place, row)?;
        Ok(())
    }

    // Puts the first row of a number.
    fn add_first(&mut self, alloc: Global, number: u16, row: Row) -> Result<(), AllocError>
        requires buckets { AreBuckets self.old }
        requires number { slice_get self.old.places.items number ≡ Some 0 }
        ensures buckets { OnOk result (AreBuckets self.new) }
        ensures added { OnOk result (IsAdded number row (rows_in self.old) (rows_in self.new)) }
    {
        let last = self.lists.len();
        if last > u16::MAX as usize {
            return Err(AllocError);
        }
        let mut list = Vec::new(alloc);
        list.push(row)?;
        self.lists.push(list)?;
        self.places[number as usize] = last as u16;
        Ok(())
    }
}
