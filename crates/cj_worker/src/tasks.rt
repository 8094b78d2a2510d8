//! Jobs and what is made for them, and their notes.

ghost use Rattle.std.specs.Prelude.{◌≡◌};
ghost use Rattle.cj_notes.specs.declared.notes.WorkNote.TheVariants as note;

use cj_draft::Skips;
use cj_ir::FunId;
use cj_notes::WorkNote;
use cj_profile::Snapshot;
use cj_spelling::Words;

/// A job: a function at a level from 1 to 3, with what the profile said of it.
#[derive(Debug, Drop)]
pub(crate) struct Task {
    pub f: FunId,
    pub level: u8,
    pub snapshot: Snapshot,
}

/// What is made for a job.
#[derive(Debug, Drop)]
pub(crate) enum Made {
    /// The words of its version, and the passes that were skipped.
    Spelled { words: Words, skipped: Skips },
    /// Its version has so many words, more than a region may have.
    TooLarge { len: u64 },
}

impl Task {
    pub fn published(self, offset: u64, skipped: Skips) -> WorkNote
        ensures { result ≡ note.Published self.f self.level offset self.snapshot skipped }
    {
        let Task { f, level, snapshot } = self;
        WorkNote::Published {
            f,
            level,
            offset,
            snapshot,
            skipped,
        }
    }

    pub fn older(self, mine: u64, found: u64) -> WorkNote
        ensures { result ≡ note.Older self.f self.level mine found self.snapshot }
    {
        let Task { f, level, snapshot } = self;
        WorkNote::Older {
            f,
            level,
            mine,
            found,
            snapshot,
        }
    }

    pub fn full(self, next: u64, need: u32) -> WorkNote
        ensures { result ≡ note.Full self.f self.level next need self.snapshot }
    {
        let Task { f, level, snapshot } = self;
        WorkNote::Full {
            f,
            level,
            next,
            need,
            snapshot,
        }
    }

    pub fn too_large(self, len: u64) -> WorkNote
        ensures { result ≡ note.TooLarge self.f self.level len self.snapshot }
    {
        let Task { f, level, snapshot } = self;
        WorkNote::TooLarge {
            f,
            level,
            len,
            snapshot,
        }
    }
}
