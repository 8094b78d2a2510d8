//! A gate that lets the calls of a script run in phases.

use cj_io::Gate;
use std::sync::atomic::{AtomicU32, Ordering};
use std::thread;

// So many workers stand beside the callers.
pub(super) const WORKERS: u32 = 4;

// How often a thread that is held back lets others run before its test fails.
const TURNS: u32 = 4_000_000;

// A gate that holds the calls behind each of three borders back, until all calls before it were answered and each worker has
// found no work since: a worker that found none waits until the others have found none too.
#[derive(Drop)]
pub(super) struct Phases {
    borders: [u32; 3],
    calls: u32,
    answered: AtomicU32,
    idles: AtomicU32,
    passed: AtomicU32,
    late: AtomicU32,
}

pub(super) fn in_phases(borders: [u32; 3], calls: u32) -> Phases {
    Phases {
        borders,
        calls,
        answered: AtomicU32::new(0),
        idles: AtomicU32::new(0),
        passed: AtomicU32::new(0),
        late: AtomicU32::new(0),
    }
}

// No call was let through for having waited too long.
pub(super) fn were_in_time(gate: &Phases) -> bool {
    gate.late.load(Ordering::SeqCst) == 0
}

// Waits until the counter has come so far; false where that takes too long.
fn has_reached(counter: &AtomicU32, count: u32) -> bool {
    for _ in 0..TURNS {
        if counter.load(Ordering::SeqCst) >= count {
            return true;
        }
        thread::yield_now();
    }
    false
}

impl Phases {
    // The last border before a call, or 0.
    fn border_before(&self, call: u32) -> u32 {
        let mut last = 0;
        for &border in &self.borders {
            if border < call {
                last = border;
            }
        }
        last
    }

    // Waits until the calls up to the border were answered, and then until each worker has found no work twice: the second time
    // it looked after that.
    fn may_pass(&self, border: u32) -> bool {
        if !has_reached(&self.answered, border) {
            return false;
        }
        let idles = self.idles.load(Ordering::SeqCst);
        has_reached(&self.idles, idles.saturating_add(2 * WORKERS))
    }
}

impl Gate for Phases {
    fn before_call(&self, call: u32) {
        let border = self.border_before(call);
        if border <= self.passed.load(Ordering::SeqCst) {
            return;
        }
        if !self.may_pass(border) {
            self.late.store(1, Ordering::SeqCst);
        }
        self.passed.store(border, Ordering::SeqCst);
    }

    fn after_call(&self, _call: u32) {
        self.answered.fetch_add(1, Ordering::SeqCst);
    }

    fn idle(&self) {
        let place = self.idles.fetch_add(1, Ordering::SeqCst);
        let all = (place - place % WORKERS).saturating_add(WORKERS);
        for _ in 0..TURNS {
            thread::yield_now();
            if self.idles.load(Ordering::SeqCst) >= all
                || self.answered.load(Ordering::SeqCst) >= self.calls
            {
                return;
            }
        }
    }
}
