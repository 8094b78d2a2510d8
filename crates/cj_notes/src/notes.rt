//! What came of a worker's call.

use cj_draft::Skips;
use cj_ir::{FunId, Sequence};
use cj_profile::Snapshot;

/// What came of a worker's call. A job is a function at a level from 1 to 3, with what the profile said of it.
#[derive(Debug, Drop)]
pub enum WorkNote {
    /// The version is current at that offset, and these passes were skipped.
    Published {
        f: FunId,
        level: u8,
        offset: u64,
        snapshot: Snapshot,
        skipped: Skips,
    },
    /// The version was written at `mine`, and a newer one was found at `found`.
    Older {
        f: FunId,
        level: u8,
        mine: u64,
        found: u64,
        snapshot: Snapshot,
    },
    /// The version has `need` words, and the table had no room for them behind `next`.
    Full {
        f: FunId,
        level: u8,
        next: u64,
        need: u32,
        snapshot: Snapshot,
    },
    /// The version's spelling has `len` words, more than a region may have.
    TooLarge {
        f: FunId,
        level: u8,
        len: u64,
        snapshot: Snapshot,
    },
    /// Nothing was to be done.
    NoneAsked,
    /// Another seat took the level of that function first.
    Taken {
        f: FunId,
        found: u64,
    },
}

pub type Works = Sequence<WorkNote>;
