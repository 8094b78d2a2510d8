//! Where callers and workers in threads may be held back.

use std::thread;

/// What callers and workers call at three places, so that a test may hold one back until another has come so far. A
/// gate answers nothing, and no clause rests on one. Calls are numbered from 1, as the script lists them.
pub trait Gate {
    /// A caller calls this right before it runs a call.
    fn before_call(&self, call: u32);

    /// A caller calls this right after it has run a call.
    fn after_call(&self, call: u32);

    /// A worker calls this where it found no work.
    fn idle(&self);
}

/// The gate that holds nobody back. A worker that has no work lets other threads run.
#[derive(Clone, Copy, Debug)]
pub struct OpenGate;

impl Gate for OpenGate {
    fn before_call(&self, _call: u32) {}

    fn after_call(&self, _call: u32) {}

    fn idle(&self) {
        thread::yield_now();
    }
}
