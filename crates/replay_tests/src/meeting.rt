//! What two threads wait at.

use std::hint::spin_loop;
use std::sync::atomic::{AtomicU64, Ordering};

// How often one looks, at most, whether the other has come.
const LOOKS: u64 = 100_000_000;

/// How many threads have come, and how many have seen that both have.
#[derive(Drop)]
pub struct Meeting {
    came: AtomicU64,
    met: AtomicU64,
}

impl Meeting {
    /// Nobody has come yet.
    pub fn new() -> Meeting {
        Meeting {
            came: AtomicU64::new(0),
            met: AtomicU64::new(0),
        }
    }

    /// One has come.
    pub fn come(&self) {
        self.came.fetch_add(1, Ordering::SeqCst);
    }

    /// Waits until two have come, and says whether they have: it looks so often and not longer.
    pub fn wait(&self) -> bool {
        for _ in 0..LOOKS {
            if self.came.load(Ordering::SeqCst) >= 2 {
                self.met.fetch_add(1, Ordering::SeqCst);
                return true;
            }
            spin_loop();
        }
        false
    }

    /// How many saw that two had come.
    pub fn met(&self) -> u64 {
        self.met.load(Ordering::SeqCst)
    }
}
