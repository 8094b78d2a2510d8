//! The greatest counts that a code may have. Those of base bodies stand in `cj_ir::limits`.

/// Registers of a code.
pub const MAX_CODE_REGS: u32 = 128;

/// Labels of a code.
pub const MAX_CODE_LABELS: u32 = 512;

/// Frames of a point.
pub const MAX_FRAMES: u32 = 4;

/// Guards of an Assume.
pub const MAX_GUARDS: u32 = 8;

/// Base turns that an Assume or Anchor goes back.
pub const MAX_BACK: u32 = 4;

/// Assumes and Anchors in a row.
pub const MAX_ROW: u32 = 8;
