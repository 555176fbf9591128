// Workers: the answers are those of doubling by hand; that workers work at once is seen at gates
// that wait for each other, each at most so many turns.

ghost use Rattle.std.specs.Prelude.{◌<◌, ◌≤◌, All, length};

use crate::workers::two_flags::{MOST_TURNS, TwoFlags};
use cs_fan::{Counter, Gate, OpenGate, Work, fan};
use std::alloc::{AllocError, Global};
use std::sync::atomic::{AtomicBool, AtomicU64, Ordering};
use std::test::Fail;
use std::thread::Threads;

struct Doubling;

impl Work<u32, u32> for Doubling {
    ghost use Rattle.std.specs.Prelude.{◌≡◌, ◌+◌, ◌<◌};

    ghost takes = { λ _ x. x < 1000 };

    ghost answers = { λ _ x y. y ≡ x + x };

    fn one(&self, _alloc: Global, item: &u32) -> Result<u32, AllocError> {
        Ok(*item + *item)
    }
}

// One of eight items waits for the seven others.
#[derive(Drop)]
struct Last {
    index: u32,
    entered: AtomicU64,
    saw: AtomicBool,
}

impl Gate for Last {
    fn enter(&self, index: u32) {
        if index != self.index {
            self.entered.fetch_add(1, Ordering::SeqCst);
            return;
        }
        for _ in 0..MOST_TURNS {
            if self.entered.load(Ordering::SeqCst) == 7 {
                self.saw.store(true, Ordering::SeqCst);
                return;
            }
        }
    }
}

// A gate that counts who enters, and work whose answer is how many had entered by then.
#[derive(Drop)]
struct Entering<'a> {
    entered: &'a AtomicU64,
}

impl Gate for Entering<'_> {
    fn enter(&self, _index: u32) {
        self.entered.fetch_add(1, Ordering::SeqCst);
    }
}

#[derive(Drop)]
struct Looking<'a> {
    entered: &'a AtomicU64,
}

impl Work<u32, u64> for Looking<'_> {
    ghost takes = { λ _ _. Unit {0} };

    ghost answers = { λ _ _ _. Unit {0} };

    fn one(&self, _alloc: Global, _item: &u32) -> Result<u64, AllocError> {
        Ok(self.entered.load(Ordering::SeqCst))
    }
}

// Work that finds no memory for any item.
struct Refusing;

impl Work<u32, u32> for Refusing {
    ghost takes = { λ _ _. Unit {0} };

    ghost answers = { λ _ _ _. Unit {0} };

    fn one(&self, _alloc: Global, _item: &u32) -> Result<u32, AllocError> {
        Err(AllocError)
    }
}

// What comes of doubling the items at a gate, by so many workers.
fn doubled<R: Threads + Sync, G: Gate + Sync>(
    rt: &R,
    alloc: Global,
    items: &[u32],
    gate: &G,
    workers: u16,
) -> Result<Vec<u32>, AllocError>
    requires few { length items.now < 1000 }
    requires small { All (λ item. item < 1000) items.now }
    requires some_workers { 0 < workers }
    requires few_workers { workers ≤ 64 }
{
    let (counter, mut seat) = Counter::new(alloc, items.len() as u32, workers)?;
    fan(rt, alloc, items, &Doubling, gate, &counter, &mut seat)
}

#[test]
fn answers_stand_in_order_for_each_number_of_workers(rt: HostRuntime) -> Result<(), Fail> {
    let items = [7, 1, 9, 4, 4, 0, 300, 12, 5];
    let wanted = [14, 2, 18, 8, 8, 0, 600, 24, 10];
    for workers in 1..6 {
        let answers = doubled(&rt, rt.alloc(), &items, &OpenGate, workers)?;
        assert!(rt; answers.as_slice() == wanted.as_slice());
    }
    Ok(())
}

#[test]
fn no_items_have_no_answers(rt: HostRuntime) -> Result<(), Fail> {
    let answers = doubled(&rt, rt.alloc(), &[], &OpenGate, 3)?;
    assert!(rt; answers.is_empty());
    Ok(())
}

// The two workers' draws and the end were written out by hand.
#[test]
fn seats_are_split_drawn_from_and_joined(rt: HostRuntime) -> Result<(), Fail> {
    let (counter, mut mine) = Counter::new(rt.alloc(), 2, 2)?;
    let mut theirs = counter.split(&mut mine)?;
    let first = counter.draw(&mut theirs);
    assert_eq!(rt; first, Some(0));
    let second = counter.draw(&mut mine);
    assert_eq!(rt; second, Some(1));
    counter.join(&mut mine, theirs);
    assert_eq!(rt; counter.draw(&mut mine), None);
    Ok(())
}

// One worker enters the gate, works, and only then enters it again.
#[test]
fn the_gate_is_entered_before_the_work(rt: HostRuntime) -> Result<(), Fail> {
    let entered = AtomicU64::new(0);
    let work = Looking { entered: &entered };
    let gate = Entering { entered: &entered };
    let (counter, mut seat) = Counter::new(rt.alloc(), 4, 1)?;
    let answers = fan(
        &rt,
        rt.alloc(),
        &[7, 7, 7, 7],
        &work,
        &gate,
        &counter,
        &mut seat,
    )?;
    assert!(rt; answers.as_slice() == [1, 2, 3, 4].as_slice());
    Ok(())
}

// One worker enters the gate once: behind a refusal it works on no other item.
#[test]
fn a_refusal_ends_the_work(rt: HostRuntime) -> Result<(), Fail> {
    let entered = AtomicU64::new(0);
    let gate = Entering { entered: &entered };
    let (counter, mut seat) = Counter::new(rt.alloc(), 4, 1)?;
    let answers = fan(
        &rt,
        rt.alloc(),
        &[7, 7, 7, 7],
        &Refusing,
        &gate,
        &counter,
        &mut seat,
    );
    assert!(rt; answers.is_err());
    assert!(rt; entered.load(Ordering::SeqCst) == 1);
    Ok(())
}

#[test]
fn two_items_meet(rt: HostRuntime) -> Result<(), Fail> {
    let gate = TwoFlags::new();
    let answers = doubled(&rt, rt.alloc(), &[3, 4], &gate, 2)?;
    assert!(rt; answers.as_slice() == [6, 8].as_slice());
    assert!(rt; gate.have_met());
    Ok(())
}

// Where the list is divided beforehand, one of the eight waits for an item behind it.
#[test]
fn one_item_waits_for_seven(rt: HostRuntime) -> Result<(), Fail> {
    let items = [1, 2, 3, 4, 5, 6, 7, 8];
    for index in 0..8 {
        let gate = Last {
            index,
            entered: AtomicU64::new(0),
            saw: AtomicBool::new(false),
        };
        let answers = doubled(&rt, rt.alloc(), &items, &gate, 2)?;
        assert!(rt; answers.as_slice() == [2, 4, 6, 8, 10, 12, 14, 16].as_slice());
        assert!(rt; gate.saw.load(Ordering::SeqCst));
    }
    Ok(())
}
