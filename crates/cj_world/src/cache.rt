//! The versions that were published, and which is current.

ghost use Rattle.std.specs.Prelude.{◌≡◌, ◌<◌, ◌∷◌, ◌++◌, [], length, replicate, slice_set, All, IfOk, OnOk};
ghost use Rattle.cj_world.specs.Caches.{made_in, IsReady, Stays};

use cj_calls::{Look, Looks};
use cj_draft::Version;
use cj_engine::Watch;
use cj_ir::{Checked, Edge, FunId, Label, NoMemory, Sequence};
use indexmap::IndexMap;
use std::alloc::Global;

/// The versions of a program's functions by the places of their first words, and for each function the place of its current
/// one, 0 where it has none. Each look at a function finds its current version; all looks are kept.
#[derive(Debug, Drop)]
pub(crate) struct Cache<'p> {
    pub checked: &'p Checked,
    versions: IndexMap<u64, Version<'p>>,
    pub current: Sequence<u64>,
    pub trail: Looks,
}

impl<'p> Cache<'p> {
    /// A cache with no versions and no looks.
    pub fn new(alloc: Global, checked: &'p Checked) -> Result<Cache<'p>, NoMemory>
        ensures checked { IfOk result (λ cache. cache.checked.now ≡ checked.now) }
        ensures made { IfOk result (λ cache. made_in cache ≡ []) }
        ensures current { IfOk result (λ cache. cache.current ≡ replicate (length checked.now.functions) 0) }
        ensures trail { IfOk result (λ cache. cache.trail ≡ []) }
        ensures ready { IfOk result IsReady }
    {
        let mut current = Sequence::new(alloc);
        for _ in checked.program().functions.items() {
            current.push(0)?;
        }
        Ok(Cache {
            checked,
            versions: IndexMap::new(alloc),
            current,
            trail: Looks::new(alloc),
        })
    }

    /// Adds a version behind all others, and makes it its function's current one.
    pub fn publish(&mut self, offset: u64, version: Version<'p>) -> Result<(), NoMemory>
        requires ready { IsReady self.old }
        requires fresh { All (λ made. made.offset < offset) (made_in self.old) }
        requires program { version.program ≡ self.old.checked.now }
        requires context { version.context ≡ [] }
        requires inside { version.code.function.0 < length self.old.checked.now.functions }
        ensures made { OnOk result (made_in self.new ≡ made_in self.old ++ record { offset = offset; code = version.entry.code } ∷ []) }
        ensures current { OnOk result (self.new.current ≡ slice_set self.old.current version.entry.code.function.0 offset) }
        ensures checked { self.new.checked ≡ self.old.checked }
        ensures trail { self.new.trail ≡ self.old.trail }
        ensures ready { OnOk result (IsReady self.new) }
    {
        let function = version.code().function;
        self.versions.insert(offset, version)?;
        self.current.set(function.0 as usize, offset);
        Ok(())
    }
}

impl<'p> Watch for Cache<'p> {
    ghost use Rattle.cj_world.specs.Worlds.{codes_in};
    ghost use Rattle.cj_world.specs.Caches.{made_in, IsReady, Stays, Went, cache_sound, went_nowhere, went_on, stays_same, stays_on};

    ghost program = { λ s. s.checked.now };

    ghost codes = { λ s. codes_in (made_in s) };

    ghost trail = { λ s. s.trail };

    ghost went = { Went };

    ghost stays = { Stays };

    ghost ready = { IsReady };

    ghost sound = { cache_sound };

    ghost went_nowhere = { went_nowhere };

    ghost went_on = { went_on };

    ghost stays_same = { stays_same };

    ghost stays_on = { stays_on };

    fn enter(&mut self, f: FunId, _args: &[i64]) -> Result<u64, NoMemory> {
        let offset = self.current.items()[f.0 as usize];
        self.trail.push(Look {
            function: f,
            offset,
        })?;
        Ok(offset)
    }

    fn version(&self, _f: FunId, offset: u64) -> &Version<'_> {
        match self.versions.get(&offset) {
            Some(version) => version,
            None => unreachable!(),
        }
    }

    fn branched(&mut self, _f: FunId, _label: Label, _edge: Edge) {}

    fn failed(&mut self, _f: FunId) {}
}
