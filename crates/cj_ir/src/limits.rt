//! The greatest counts that a program and its script may have.

/// Functions of a program.
pub const MAX_FUNCTIONS: usize = 64;

/// Parameters of a function.
pub const MAX_PARAMS: u32 = 8;

/// Registers of a function, parameters counted.
pub const MAX_REGS: usize = 32;

/// Labels of a function.
pub const MAX_LABELS: usize = 256;

/// The number that a text gives a label.
pub const MAX_LABEL_NAME: u32 = 65535;

/// Bytes of a name.
pub const MAX_NAME: usize = 32;

/// Bytes of the text of a `fail`.
pub const MAX_TEXT: usize = 64;

/// Cells of the memory of a call.
pub const MAX_CELLS: u32 = 65_536;

/// Turns that a call may be allowed.
pub const MAX_TURNS: u32 = 1_000_000;

/// The level of a version.
pub const MAX_LEVEL: u8 = 3;
