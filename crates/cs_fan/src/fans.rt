//! Work on a list of items by several workers, who draw the items' numbers from one counter.
ghost use Rattle.std.specs.Prelude.{◌≡◌, ◌+◌, ◌<◌, length, map, All, IfOk};
ghost use Rattle.std.specs.List.{AllZip};
ghost use Rattle.cs_fan.specs.Numbers.{IsEachOnceBelow};
ghost use Rattle.cs_fan.specs.Seats.{IsOf, HasSeenEnd, IsFresh};
ghost use Rattle.cs_fan.specs.Answers.{answer_of, IsReady, Works, ListsInOrder};

use crate::counter::{Counter, Seat};
use crate::work::{Gate, Work};
use std::alloc::{AllocError, Global};
use std::thread::{Threads, join_mut};

// What the workers share.
#[derive(Drop)]
struct Shared<'a, T, W, G> {
    items: &'a [T],
    work: &'a W,
    gate: &'a G,
    counter: &'a Counter,
}

// Draws until the end, and works on each item when its number was drawn.
fn work_off<T, U: Drop, W: Work<T, U>, G: Gate>(
    alloc: Global,
    all: &Shared<'_, T, W, G>,
    seat: &mut Seat,
) -> Result<Vec<(u32, U)>, AllocError>
    requires { IsReady (W.takes all.now.work.now) all.now.items.now all.now.counter.now seat.old }
    ensures of { IsOf all.now.counter.now seat.new }
    ensures workers { seat.new.workers ≡ seat.old.workers }
    ensures ok { Works (W.answers all.now.work.now) all.now.items.now seat.new result }
{
    let share = all.items.len() / all.counter.workers().max(1) as usize;
    let mut answers = Vec::with_capacity(alloc, share)?;
    while let Some(i) = all.counter.draw(seat) {
        all.gate.enter(i);
        let answer = all.work.one(alloc, &all.items[i as usize])?;
        answers.push((i, answer))?;
    }
    Ok(answers)
}

// As many workers as the seat stands for work off the items.
fn share<R: Threads, T: Sync, U: Send + Drop, W: Work<T, U> + Sync, G: Gate + Sync>(
    rt: &R,
    alloc: Global,
    all: &Shared<'_, T, W, G>,
    seat: &mut Seat,
    workers: u16,
) -> Result<Vec<(u32, U)>, AllocError>
    requires ready { IsReady (W.takes all.now.work.now)
        all.now.items.now all.now.counter.now seat.old }
    requires workers { seat.old.workers ≡ workers }
    ensures of { IsOf all.now.counter.now seat.new }
    ensures workers { IfOk result (λ _. seat.new.workers ≡ seat.old.workers) }
    ensures ok { Works (W.answers all.now.work.now) all.now.items.now seat.new result }
{
    if workers < 2 {
        return work_off(alloc, all, seat);
    }
    let mut other = all.counter.split(seat)?;
    // The first closure is the one that gets a thread.
    let (theirs, mine) = join_mut(
        rt,
        &mut ||
            requires ready { IsReady (W.takes all.now.work.now)
                all.now.items.now all.now.counter.now other }
            ensures of { IsOf all.entry.now.counter.now other.exit }
            ensures workers { other.exit.workers ≡ other.entry.workers }
            ensures ok { Works (W.answers all.entry.now.work.now)
                all.entry.now.items.now other.exit result }
        { work_off(alloc, all, &mut other) },
        &mut ||
            requires ready { IsReady (W.takes all.now.work.now)
                all.now.items.now all.now.counter.now seat.now }
            requires workers { seat.now.workers + 1 ≡ workers }
            ensures of { IsOf all.entry.now.counter.now seat.exit.now }
            ensures workers { IfOk result (λ _. seat.exit.now.workers ≡ seat.entry.now.workers) }
            ensures ok { Works (W.answers all.entry.now.work.now)
                all.entry.now.items.now seat.exit.now result }
        { share(rt, alloc, all, seat, workers - 1) },
    );
    all.counter.join(seat, other);
    let mut mine = mine?;
    let mut theirs = theirs?;
    mine.append(&mut theirs)?;
    Ok(mine)
}

// The answers without their numbers.
fn without_numbers<U: Drop>(alloc: Global, pairs: Vec<(u32, U)>) -> Result<Vec<U>, AllocError>
    ensures { IfOk result (λ answers. answers.items ≡ map answer_of pairs.items) }
{
    pairs.into_iter().map(|p| p.1).collect(alloc)
}

// The answers without their numbers, in the order of the numbers.
fn in_order<U: Drop>(alloc: Global, mut pairs: Vec<(u32, U)>) -> Result<Vec<U>, AllocError>
    ensures { IfOk result (λ answers. ListsInOrder pairs.items answers.items) }
{
    pairs.sort_by_key(|p| p.0)?;
    without_numbers(alloc, pairs)
}

/// The answers of the items, in the items' order, worked out by as many workers as the counter has.
///
/// The lent seat stands for all of them and has drawn nothing. Each worker draws a number, enters
/// the gate with it, works on that item, and draws the next. A worker that finds no memory draws no
/// more, and want of memory is then the answer; the seat is still one of the counter.
pub fn fan<R: Threads + Sync, T: Sync, U: Send + Drop, W: Work<T, U> + Sync, G: Gate + Sync>(
    rt: &R,
    alloc: Global,
    items: &[T],
    work: &W,
    gate: &G,
    counter: &Counter,
    seat: &mut Seat,
) -> Result<Vec<U>, AllocError>
    requires count { counter.now.items ≡ length items.now }
    requires of { IsOf counter.now seat.old }
    requires fresh { IsFresh seat.old }
    requires workers { seat.old.workers ≡ counter.now.workers }
    requires takes { All (W.takes work.now) items.now }
    ensures of { IsOf counter.now seat.new }
    ensures answers { IfOk result (λ answers.
        AllZip (W.answers work.now) items.now answers.items) }
    ensures workers { IfOk result (λ _. seat.new.workers ≡ counter.now.workers) }
    ensures end { IfOk result (λ _. HasSeenEnd seat.new) }
    ensures drawn { IfOk result (λ _. IsEachOnceBelow (length items.now) seat.new.drawn) }
{
    let all = Shared {
        items,
        work,
        gate,
        counter,
    };
    let pairs = share(rt, alloc, &all, seat, counter.workers())?;
    in_order(alloc, pairs)
}
