//! The greatest counts that a replay may have.

/// Runs that begin, and compilations: so many of each.
pub const MAX_EVENTS: u32 = 256;

/// Passes of a compilation.
pub const MAX_PASSES: usize = 256;

/// Labels that a pass lists.
pub const MAX_LISTED: usize = 64;
