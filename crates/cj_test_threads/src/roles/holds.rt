//! A gate that holds one call back.

use cj_io::Gate;
use std::sync::atomic::{AtomicU32, Ordering};
use std::thread;

// How often a caller that is held back lets other threads run before its test fails.
const TURNS: u32 = 4_000_000;

// A gate that holds one call back until another was answered and workers have found no work so many times since.
#[derive(Drop)]
pub(super) struct Hold {
    held: u32,
    until: u32,
    idles: u32,
    answered: AtomicU32,
    idle: AtomicU32,
    in_time: AtomicU32,
}

pub(super) fn gate_for(held: u32, until: u32, idles: u32) -> Hold {
    Hold {
        held,
        until,
        idles,
        answered: AtomicU32::new(0),
        idle: AtomicU32::new(0),
        in_time: AtomicU32::new(0),
    }
}

impl Gate for Hold {
    fn before_call(&self, call: u32) {
        if call != self.held {
            return;
        }
        for _ in 0..TURNS {
            if self.idle.load(Ordering::SeqCst) >= self.idles {
                self.in_time.store(1, Ordering::SeqCst);
                return;
            }
            thread::yield_now();
        }
    }

    fn after_call(&self, call: u32) {
        if call == self.until {
            self.answered.store(1, Ordering::SeqCst);
        }
    }

    fn idle(&self) {
        if self.answered.load(Ordering::SeqCst) == 1
            && self.idle.load(Ordering::SeqCst) < self.idles
        {
            self.idle.fetch_add(1, Ordering::SeqCst);
        }
        thread::yield_now();
    }
}

pub(super) fn held_in_time(gate: &Hold) -> bool {
    gate.in_time.load(Ordering::SeqCst) == 1
}
