//! How much a plan takes in, and from which counts on.

/// Cold edges, at most.
pub const COLDS: usize = 64;

/// An edge is cold where the other one was taken at least as often.
pub const HOT: u64 = 8;

/// An argument is guarded that agreed at least as often.
pub const AGREEMENTS: u64 = 4;

/// Inlined calls, at most.
pub const INLINES: usize = 4;

/// Labels of an inlined function, at most.
pub const SHORT: usize = 24;
