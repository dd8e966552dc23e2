//! Waiting for a move in a hall.

use std::sync::{Condvar, Mutex, Wait};

/// How many moves there were, and where threads sleep until there is one more. The count may go round.
#[derive(Drop)]
pub(crate) struct Moves {
    count: Mutex<u64>,
    moved: Condvar,
}

impl Moves {
    /// No move yet.
    pub(crate) fn new() -> Moves {
        Moves {
            count: Mutex::new(0),
            moved: Condvar::new(),
        }
    }

    /// Tells of a move.
    pub(crate) fn tell<R: Wait>(&self, rt: &R) {
        let mut count = self.count.lock(rt);
        *count = count.wrapping_add(1);
        self.moved.notify_all();
    }

    /// What a thread remembers before it tries: so no move between its try and its sleep is missed.
    pub(crate) fn seen<R: Wait>(&self, rt: &R) -> u64 {
        *self.count.lock(rt)
    }

    /// Sleeps until there was another move.
    pub(crate) fn wait_past<R: Wait>(&self, rt: &R, seen: u64) {
        self.moved
            .wait_while(rt, self.count.lock(rt), |count| { *count == seen });
    }
}
