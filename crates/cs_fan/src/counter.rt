//! The counter that workers draw from, and their seats at it.
ghost use Rattle.std.specs.Prelude.{◌≡◌, ◌+◌, ◌-◌, ◌<◌, ◌≤◌, [], ◌∷◌, ◌++◌, ◌||◌, false, IfOk, IfErr, IfSome, IfNone};
ghost use Rattle.cs_fan.specs.Seats.{IsOf, HasSeenEnd, IsFresh, DrawsEachOnce};

use crate::rule::{Draw, Draws, Look, Part};
use crate::view::View;
use atomic_table::Table;
use std::alloc::{AllocError, Global};
use std::marker::Model;

/// A counter of some items for some workers, seen as these two numbers.
///
/// It is shared by the workers, and changed through their seats alone.
#[derive(Drop)]
pub struct Counter {
    table: Table<u8, View, (u32, u16), Draws, Global>,
    items: u32,
    workers: u16,
}

impl Model for Counter {
    ghost use Rattle.cs_fan.specs.Seen.{PlainCounter};

    ghost Value = { PlainCounter };

    ghost use Rattle.cs_fan.specs.Fields.{counter_of, IsCounter};

    ghost view = { counter_of };

    ghost invariant = { IsCounter };
}

/// A seat at a counter, seen as the numbers that it has drawn, the number of workers that it stands
/// for, which is at least 1, and whether it has seen the end.
#[derive(Drop)]
pub struct Seat {
    place: atomic_table::Seat<u8, View>,
}

impl Model for Seat {
    ghost use Rattle.cs_fan.specs.Seen.{PlainSeat};

    ghost Value = { PlainSeat };

    ghost use Rattle.cs_fan.specs.Fields.{seat_of, IsSeat};

    ghost view = { seat_of };

    ghost invariant = { IsSeat };
}

impl Counter {
    /// A counter of so many items, with the one seat that stands for all of its 1 to 64 workers.
    pub fn new(alloc: Global, items: u32, workers: u16) -> Result<(Counter, Seat), AllocError>
        requires some { 0 < workers }
        requires few { workers ≤ 64 }
        ensures items { IfOk result (λ r. r.0.items ≡ items) }
        ensures workers { IfOk result (λ r. r.0.workers ≡ workers) }
        ensures seat { IfOk result (λ r.
            IsOf r.0 r.1 × IsFresh r.1 × (r.1.workers ≡ workers)) }
    {
        let (table, place) = Table::of_words(alloc, &[0], &(items, workers))?;
        let counter = Counter {
            table,
            items,
            workers,
        };
        Ok((counter, Seat { place }))
    }

    /// The number of workers.
    pub(crate) fn workers(&self) -> u16
        ensures { result ≡ self.now.workers }
    {
        self.workers
    }

    /// A seat for one of the workers of a seat that has drawn nothing.
    ///
    /// The error is want of memory. This table takes none for a seat.
    pub fn split(&self, seat: &mut Seat) -> Result<Seat, AllocError>
        requires of { IsOf self.now seat.old }
        requires fresh { IsFresh seat.old }
        requires two { 2 ≤ seat.old.workers }
        ensures lent { IfOk result (λ _. IsOf self.now seat.new × IsFresh seat.new) }
        ensures workers { IfOk result (λ _. seat.new.workers + 1 ≡ seat.old.workers) }
        ensures given { IfOk result (λ s. IsOf self.now s × IsFresh s × (s.workers ≡ 1)) }
        ensures refused { IfErr result (λ _. seat.new ≡ seat.old) }
    {
        let place = self.table.shared.split_seat::<Part>(&mut seat.place);
        Ok(Seat { place })
    }

    /// The next number below the items, or None at the end. No number is drawn twice, by whichever
    /// seat.
    pub fn draw(&self, seat: &mut Seat) -> Option<u32>
        requires of { IsOf self.now seat.old }
        requires before_end { seat.old.saw_end ≡ false }
        ensures of { IsOf self.now seat.new }
        ensures workers { seat.new.workers ≡ seat.old.workers }
        ensures below { IfSome result (λ number. number < self.now.items) }
        ensures drawn { IfSome result (λ number.
            seat.new.drawn ≡ seat.old.drawn ++ number ∷ []) }
        ensures before_end { IfSome result (λ _. seat.new.saw_end ≡ false) }
        ensures none_drawn { IfNone result (seat.new.drawn ≡ seat.old.drawn) }
        ensures end { IfNone result (HasSeenEnd seat.new) }
        ensures once { DrawsEachOnce seat.new }
    {
        let word = self.table.shared.fetch_add::<Draw>(&mut seat.place, 0, 1);
        if word < u64::from(self.items) {
            Some(word as u32)
        } else {
            None
        }
    }

    /// The seat takes the numbers and the workers of the other, which is spent.
    pub fn join(&self, seat: &mut Seat, other: Seat)
        requires seat { IsOf self.now seat.old }
        requires other { IsOf self.now other }
        ensures of { IsOf self.now seat.new }
        ensures drawn { seat.new.drawn ≡ seat.old.drawn ++ other.drawn }
        ensures workers { seat.new.workers ≡ seat.old.workers + other.workers }
        ensures end { seat.new.saw_end ≡ (seat.old.saw_end || other.saw_end) }
        ensures once { DrawsEachOnce seat.new }
    {
        let Seat { place } = other;
        let shared = &self.table.shared;
        shared.join_seat::<Part>(&mut seat.place, place);
        // A join tells nothing of the rule; a look does.
        shared.load::<Look>(&mut seat.place, 0);
    }
}
