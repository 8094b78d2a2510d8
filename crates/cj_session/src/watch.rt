//! A session as the watch of a run.

ghost use Rattle.std.specs.Prelude.{◌≡◌, ◌≢◌, ◌∷◌, ◌++◌, [], ◌<◌, length, IfOk, IsSome};

use crate::counting::{count_entry, count_failure};
use crate::finding::find;
use crate::session::Session;
use cj_draft::Version;
use cj_engine::Watch;
use cj_ir::{Edge, FunId, Label, NoMemory};

impl<'a> Watch for Session<'a> {
    ghost use Rattle.cj_session.specs.Sessions.{IsReady, Stays, Went, codes_of, trail_of};
    ghost use Rattle.cj_session.specs.Laws.{session_sound, went_nowhere, went_on, stays_same, stays_on};

    ghost program = { λ s. s.checked.now };

    ghost codes = { codes_of };

    ghost trail = { trail_of };

    ghost went = { Went };

    ghost stays = { Stays };

    ghost ready = { IsReady };

    ghost sound = { session_sound };

    ghost went_nowhere = { went_nowhere };

    ghost went_on = { went_on };

    ghost stays_same = { stays_same };

    ghost stays_on = { stays_on };

    fn enter(&mut self, f: FunId, args: &[i64]) -> Result<u64, NoMemory> {
        count_entry(self.profile, &mut self.profile_seat, f, args);
        find(
            self.alloc,
            self.table,
            &mut self.code_seat,
            self.checked,
            &mut self.versions,
            f,
        )
    }

    fn version(&self, f: FunId, offset: u64) -> &Version<'_> {
        match self.versions.map.get(&(f.0, offset)) {
            Some(version) => version,
            None => unreachable!(),
        }
    }

    fn branched(&mut self, f: FunId, label: Label, edge: Edge) {
        self.profile
            .branched(&mut self.profile_seat, f, label, edge);
    }

    fn failed(&mut self, f: FunId) {
        count_failure(self.profile, &mut self.profile_seat, f);
    }
}
