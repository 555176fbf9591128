// A gate at which the first two items wait for each other, each at most so many turns.

use cs_fan::Gate;
use std::sync::atomic::{AtomicBool, Ordering};

/// Most turns for which a worker waits at a gate.
pub(crate) const MOST_TURNS: u32 = 100_000_000;

/// A flag for each of two items.
#[derive(Drop)]
pub(crate) struct TwoFlags {
    first: AtomicBool,
    second: AtomicBool,
    first_saw: AtomicBool,
    second_saw: AtomicBool,
}

impl TwoFlags {
    /// Two flags that aren't raised.
    pub fn new() -> TwoFlags {
        TwoFlags {
            first: AtomicBool::new(false),
            second: AtomicBool::new(false),
            first_saw: AtomicBool::new(false),
            second_saw: AtomicBool::new(false),
        }
    }

    /// Whether each saw the other's flag.
    pub fn have_met(&self) -> bool {
        self.first_saw.load(Ordering::SeqCst) && self.second_saw.load(Ordering::SeqCst)
    }
}

// Raises a flag and waits for the other.
fn meet(mine: &AtomicBool, other: &AtomicBool, saw: &AtomicBool) {
    mine.store(true, Ordering::SeqCst);
    for _ in 0..MOST_TURNS {
        if other.load(Ordering::SeqCst) {
            saw.store(true, Ordering::SeqCst);
            return;
        }
    }
}

impl Gate for TwoFlags {
    fn enter(&self, index: u32) {
        if index == 0 {
            meet(&self.first, &self.second, &self.first_saw);
        } else {
            meet(&self.second, &self.first, &self.second_saw);
        }
    }
}
