//! What a seat knows. No value of these types is made.

use cj_ir::Program;
use std::collections::LinkedList;

/// A step: the number of its word, the value that it found (none at a store), and the value that it left.
pub struct Read {
    pub word: u64,
    pub found: Option<u64>,
    pub left: u64,
}

/// Whether the seat was not joined into another yet, whether there never was another seat, the profile's program, the
/// steps that the seat made, those of the seats that were joined into it, a list for each, and how many seats were split
/// off it and off those.
pub struct View {
    pub live: bool,
    pub sole: bool,
    pub program: Program,
    pub reads: LinkedList<Read>,
    pub joined: LinkedList<LinkedList<Read>>,
    pub splits: u64,
}
