//! A gate for two cases.

use cif_batch::Gate;
use std::hint;
use std::sync::atomic::{AtomicU64, Ordering};

/// How often a case looks whether the other one has entered.
const TURNS: u32 = 100_000_000;

/// A gate for two cases, each of which stays in it until the other has entered or the turns are over.
#[derive(Drop)]
pub struct Both {
    first: AtomicU64,
    second: AtomicU64,
    late: AtomicU64,
}

impl Both {
    pub fn new() -> Both {
        Both {
            first: AtomicU64::new(0),
            second: AtomicU64::new(0),
            late: AtomicU64::new(0),
        }
    }

    /// Whether each case entered once and none ran out of turns.
    pub fn is_passed(&self) -> bool {
        self.first.load(Ordering::SeqCst) == 1
            && self.second.load(Ordering::SeqCst) == 1
            && self.late.load(Ordering::SeqCst) == 0
    }
}

impl Gate for Both {
    fn enter(&self, case: u32) {
        let (mine, other) = if case == 1 {
            (&self.first, &self.second)
        } else {
            (&self.second, &self.first)
        };
        mine.fetch_add(1, Ordering::SeqCst);
        for _ in 0..TURNS {
            if other.load(Ordering::SeqCst) > 0 {
                return;
            }
            hint::spin_loop();
        }
        self.late.fetch_add(1, Ordering::SeqCst);
    }
}
