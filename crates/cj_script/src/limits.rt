//! The greatest counts that a script may have, and what stands where nothing is said.

/// Calls of a script.
pub const MAX_CALLS: usize = 256;

/// Cells of a call's memory where nothing is said.
pub const USUAL_CELLS: u32 = 64;
