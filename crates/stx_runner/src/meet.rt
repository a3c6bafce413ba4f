// A gate at which two clients wait for each other once.
use crate::gate::Gate;
use std::sync::atomic::{AtomicBool, Ordering};
use std::thread;

/// Holds two clients before one call of each, until both are there: that shows that they run side by side, since one
/// thread can't stand at two places.
#[derive(Drop)]
pub struct Meet {
    first: u32,
    second: u32,
    /// The number of the call, from 1, before which the clients meet.
    nth: u64,
    /// How often a client looks for the other before it goes on alone.
    limit: u64,
    first_came: AtomicBool,
    second_came: AtomicBool,
    gave_up: AtomicBool,
}

impl Meet {
    /// A gate at which the clients with these numbers meet before their `nth` call, counted from 1. Each looks for the
    /// other at most `limit` times, and lets other threads run between two looks.
    pub fn new(first: u32, second: u32, nth: u64, limit: u64) -> Meet {
        Meet {
            first,
            second,
            nth,
            limit,
            first_came: AtomicBool::new(false),
            second_came: AtomicBool::new(false),
            gave_up: AtomicBool::new(false),
        }
    }

    /// Whether both clients came, and neither went on alone.
    pub fn met(&self) -> bool {
        self.first_came.load(Ordering::SeqCst)
            && self.second_came.load(Ordering::SeqCst)
            && !self.gave_up.load(Ordering::SeqCst)
    }

    // Says that one client has come, and waits for the other.
    fn wait(&self, came: &AtomicBool, other_came: &AtomicBool) {
        came.store(true, Ordering::SeqCst);
        for _ in 0..self.limit {
            if other_came.load(Ordering::SeqCst) {
                return;
            }
            thread::yield_now();
        }
        self.gave_up.store(true, Ordering::SeqCst);
    }
}

impl Gate for Meet {
    fn before(&self, client: u32, nth: u64) {
        if nth != self.nth {
            return;
        }
        if client == self.first {
            self.wait(&self.first_came, &self.second_came);
        } else if client == self.second {
            self.wait(&self.second_came, &self.first_came);
        }
    }

    fn after(&self, _client: u32, _nth: u64) {}
}
