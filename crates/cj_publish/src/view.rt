//! What a seat knows. Of these types only `Told` and `Cell` are made.

use crate::publishing::Published;
use cj_ir::{Checked, FunId, Program};
use std::collections::LinkedList;
use std::snapshot::Snapshot;

/// A slot of a function: it has a word of its own.
#[derive(Clone, Copy, Debug, PartialEq, Eq)]
pub struct Cell {
    pub function: FunId,
    pub slot: u32,
}

/// What a table is told when it is made.
#[derive(Drop)]
pub struct Told {
    pub program: Snapshot<Checked>,
    pub slots: u64,
    pub size: u64,
}

/// What every seat agrees on: the program, how many slots each function has, and how many words there are.
pub struct Key {
    pub program: Program,
    pub slots: u64,
    pub size: u64,
}

/// Words that the seat has claimed and not published, with those that it has written.
pub struct Claim {
    pub offset: u64,
    pub len: u64,
    pub written: LinkedList<u64>,
}

/// A published region, with the words that the seat has read of it.
pub struct Region {
    pub cell: Cell,
    pub offset: u64,
    pub len: u64,
    pub read: LinkedList<u64>,
}

/// Whether the seat was not joined into another yet, whether there never was another, the key, the greatest first
/// unclaimed word that it has seen, its claim, the regions that it has seen, its lookups, how many words it has claimed, what
/// became of its claims and of those of the seats that were joined into it, the lookups of the latter, and how many seats were
/// split off it and off those.
pub struct View {
    pub live: bool,
    pub sole: bool,
    pub key: Key,
    pub next: u64,
    pub claim: Option<Claim>,
    pub regions: LinkedList<Region>,
    pub lookups: LinkedList<(Cell, u64)>,
    pub taken: u64,
    pub outcomes: LinkedList<(Cell, Published)>,
    pub joined: LinkedList<LinkedList<(Cell, u64)>>,
    pub splits: u64,
}
