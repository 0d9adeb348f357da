//! How a master spaces its turns.
//!
//! Where threads hand a value on at every turn, most of their time goes into the way from one processor to the other.
//! So of masters that had to wait for several turns in a row some rest, and the others have theirs without a wait.

use std::hint::spin_loop;
use std::sync::Wait;
use std::thread::{Parker, yield_now};
use std::time::Duration;

/// How often the master that is next looks again at once. A turn mostly takes no longer, and a thread that has yielded
/// comes back late.
const LOOKS: u8 = 200;

/// For how many turns in a row a master has to wait before it rests. One that meets others seldom never does.
const WAITS: u8 = 8;

/// How long a master rests, in milliseconds.
const REST: u64 = 2;

/// In so many turns, one after another, the masters of even turns may rest, and in the next those of odd ones: of two
/// that take turns, one goes on.
const BLOCK: u64 = 64;

/// For how many turns in a row a master had to wait since it rested, which turn the last of these was, whether it had
/// to wait for the last turn of all, and its looks as the one that is next.
#[derive(Drop)]
pub(crate) struct Pace {
    waits: u8,
    turn: u64,
    waited: bool,
    looks: u8,
}

impl Pace {
    /// The pace of a master that took no turn yet.
    pub(crate) fn new() -> Pace {
        Pace {
            waits: 0,
            turn: 0,
            waited: false,
            looks: 0,
        }
    }

    /// Begins a turn. The master rests first where it had to wait for each of its last turns.
    pub(crate) fn begin<R: Wait>(&mut self, rt: &R) {
        self.waits = if self.waited {
            self.waits.saturating_add(1)
        } else {
            0
        };
        self.waited = false;
        self.looks = 0;
        if self.waits >= WAITS && self.turn % 2 == self.turn / BLOCK % 2 {
            Parker::new().park_timeout(rt, Duration::from_millis(REST));
            self.waits = 0;
        }
    }

    /// Waits a little before the next look of a master whose turn this is, and that so many turns are before.
    pub(crate) fn wait(&mut self, turn: u64, before: u64) {
        self.waited = true;
        self.turn = turn;
        if before == 1 && self.looks < LOOKS {
            self.looks += 1;
            spin_loop();
        } else {
            yield_now();
        }
    }
}
