// A gate at which the first items of a batch wait for each other, each at most so many turns.

use crate::workers::two_flags::MOST_TURNS;
use cs_fan::Gate;
use std::sync::atomic::{AtomicU64, Ordering};

/// So many items, how many of them entered, and how many saw that all had.
#[derive(Drop)]
pub(crate) struct Meeting {
    most: u32,
    entered: AtomicU64,
    saw: AtomicU64,
}

impl Meeting {
    /// None has entered.
    pub fn of(most: u32) -> Meeting {
        Meeting {
            most,
            entered: AtomicU64::new(0),
            saw: AtomicU64::new(0),
        }
    }

    /// Whether each saw that all had entered.
    pub fn have_met(&self) -> bool {
        self.saw.load(Ordering::SeqCst) == u64::from(self.most)
    }
}

impl Gate for Meeting {
    fn enter(&self, index: u32) {
        if index >= self.most {
            return;
        }
        self.entered.fetch_add(1, Ordering::SeqCst);
        for _ in 0..MOST_TURNS {
            if self.entered.load(Ordering::SeqCst) >= u64::from(self.most) {
                self.saw.fetch_add(1, Ordering::SeqCst);
                return;
            }
        }
    }
}
