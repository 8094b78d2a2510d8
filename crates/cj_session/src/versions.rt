//! The versions that sessions have read.

ghost use Rattle.std.specs.Prelude.{◌≡◌, ◌++◌, ◌∷◌, [], true, false, None, OnOk, OnErr, IsSome};
ghost use Rattle.cj_ir.specs.declared.language.Program.{Program};
ghost use Rattle.cj_publish.specs.declared.view.View.{View};
ghost use Rattle.cj_session.specs.Versions.{codes_in, AreKnown};

use cj_draft::Version;
use cj_ir::{FunId, NoMemory};
use indexmap::IndexMap;
use std::alloc::Global;

/// Versions by function and offset. A session takes them, adds those that it reads, and gives them back, so that the next
/// one at the same table need not read them again.
#[derive(Drop)]
pub struct Versions<'a> {
    pub(crate) map: IndexMap<(u32, u64), Version<'a>>,
}

impl<'a> Versions<'a> {
    /// No versions. It takes no memory.
    #[tactic(auto, using(crate::proofs::Going::none_known))]
    pub fn new(alloc: Global) -> Versions<'a>
        ensures known { (P : Program) (v : View) → AreKnown P v result }
    {
        Versions {
            map: IndexMap::new(alloc),
        }
    }

    /// Whether there is a version of the function at that offset.
    #[tactic(auto, unfolding(crate::specs::Versions::codes_in))]
    pub(crate) fn has(&self, f: FunId, offset: u64) -> bool
        ensures known { result ≡ true → IsSome (codes_in self.now.map.entries f offset) }
        ensures missing { result ≡ false → codes_in self.now.map.entries f offset ≡ None }
    {
        match self.map.get(&(f.0, offset)) {
            Some(_) => true,
            None => false,
        }
    }

    /// Adds a version at an offset where the function has none.
    pub(crate) fn add(
        &mut self,
        f: FunId,
        offset: u64,
        version: Version<'a>,
    ) -> Result<(), NoMemory>
        requires missing { codes_in self.old.map.entries f offset ≡ None }
        ensures ok { OnOk result (self.new.map.entries ≡ self.old.map.entries ++ ((f.0, offset), version.entry) ∷ []) }
        ensures err { OnErr result (self.new.map.entries ≡ self.old.map.entries) }
    {
        self.map.insert((f.0, offset), version)?;
        Ok(())
    }
}
