//! What a play is answered with.

use cj_calls::Reports;
use cj_draft::Skips;
use cj_ir::Sequence;

/// What came of a compilation. Nothing but a published version changes what is found later.
#[derive(Clone, Copy, Debug, PartialEq, Eq)]
pub enum Compiled {
    /// The version's first word. It is its function's current version.
    Published { offset: u64 },
    /// The version has so many words, more than 65,536. (Where they are more than 2^64 - 1, it is that number.)
    TooLarge { len: u64 },
    /// The version needs so many words from the first free one on, and the table has fewer.
    Full { next: u64, need: u32 },
}

pub type CompiledList = Sequence<Compiled>;

pub type SkipLists = Sequence<Skips>;

/// The answer of a play: one report for each run that began, and for each compilation what came of it and what its passes
/// skipped, all in the order of the events.
#[derive(Debug, Drop)]
pub struct Played {
    pub reports: Reports,
    pub compiled: CompiledList,
    pub skips: SkipLists,
}
