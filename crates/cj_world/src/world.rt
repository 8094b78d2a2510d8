//! The world of a play: what is published and the runs that have begun, and what an event does to them.

ghost use Rattle.std.specs.Prelude.{◌≡◌, ◌+◌, ◌<◌, [], length, All, Some, IfOk, OnOk, OnErr, slice_get};
ghost use Rattle.std.specs.List.{AllZip};
ghost use Rattle.cj_ir.specs.declared.language.Program.{Program};
ghost use Rattle.cj_base.specs.Run.{begun};
ghost use Rattle.cj_spelling.specs.Counting.{capped};
ghost use Rattle.cj_events.specs.Playable.{CanBegin, CanHappen};
ghost use Rattle.cj_events.specs.Tallies.{begun_by};
ghost use Rattle.cj_world.specs.declared.played.Compiled.TheVariants.{TooLarge};
ghost use Rattle.cj_world.specs.Worlds.{codes_in, first_world, begins, steps, finishes, finished, words_in, claimed, published};
ghost use Rattle.cj_world.specs.Plays.{Happens};
ghost use Rattle.cj_world.specs.Played.{Tells};
ghost use Rattle.cj_world.specs.Caches.{made_in};
ghost use Rattle.cj_world.specs.Running.{run_of, Fits, IsThrough, world_of, Orderly, HasGone, HasWords, IsToldOf};

use crate::cache::Cache;
use crate::played::{Compiled, CompiledList, Played, SkipLists};
use crate::runs::Run;
use cj_calls::Reports;
use cj_draft::{Passes, Version};
use cj_events::Event;
use cj_ir::{Checked, FunId, NoMemory, ScriptCall};
use cj_machine::laws::{later_codes_keep_a_report, later_codes_keep_a_run};
use cj_passes::pipeline;
use cj_spelling::MAX_WORDS;
use std::alloc::Global;

/// The state of a play: the versions in a table of so many words, with its first free word, the runs in the order in which
/// they began, and what is told of each compilation.
#[derive(Debug, Drop)]
pub(crate) struct World<'p> {
    alloc: Global,
    cache: Cache<'p>,
    words: u32,
    next: u32,
    runs: Vec<Run<'p>>,
    compiled: CompiledList,
    skips: SkipLists,
}

/// How many words a code has.
enum WordCount {
    Few(u32),
    TooLarge { len: u64 },
}

impl<'p> World<'p> {
    /// Nothing has happened yet.
    pub fn first(alloc: Global, checked: &'p Checked, words: u32) -> Result<World<'p>, NoMemory>
        ensures made { IfOk result (λ world. world_of world ≡ first_world checked.now) }
        ensures checked { IfOk result (λ world. world.cache.checked.now ≡ checked.now) }
        ensures words { IfOk result (λ world. world.words ≡ words) }
        ensures orderly { IfOk result Orderly }
    {
        let functions = checked.program().functions.items().len();
        Ok(World {
            alloc,
            cache: Cache::new(alloc, checked)?,
            words,
            next: 1 + functions as u32,
            runs: Vec::new(alloc),
            compiled: CompiledList::new(alloc),
            skips: SkipLists::new(alloc),
        })
    }

    /// An event happens.
    pub fn happen(&mut self, event: &'p Event) -> Result<(), NoMemory>
        requires fits { CanHappen self.old.cache.checked.now.functions (length self.old.runs.items) event.now }
        requires orderly { Orderly self.old }
        ensures made { OnOk result (Happens self.old.cache.checked.now self.old.words event.now (world_of self.old) (world_of self.new)) }
        ensures begun { OnOk result (length self.new.runs.items ≡ length self.old.runs.items + begun_by event.now) }
        ensures checked { OnOk result (self.new.cache.checked.now ≡ self.old.cache.checked.now) }
        ensures words { OnOk result (self.new.words ≡ self.old.words) }
        ensures orderly { OnOk result (Orderly self.new) }
    {
        match event {
            Event::Begin(call) => self.begin(call),
            Event::Step { run, count } => self.go(*run as usize - 1, *count),
            Event::Compile { function, passes } => self.compile(*function, passes),
        }
    }

    /// A run of the call begins.
    fn begin(&mut self, call: &'p ScriptCall) -> Result<(), NoMemory>
        requires fits { CanBegin self.old.cache.checked.now.functions call.now }
        requires orderly { Orderly self.old }
        ensures made { OnOk result (world_of self.new ≡ begins self.old.cache.checked.now (begun call.now) (world_of self.old)) }
        ensures begun { OnOk result (length self.new.runs.items ≡ length self.old.runs.items + 1) }
        ensures checked { OnOk result (self.new.cache.checked.now ≡ self.old.cache.checked.now) }
        ensures words { OnOk result (self.new.words ≡ self.old.words) }
        ensures orderly { OnOk result (Orderly self.new) }
    {
        let run = Run::begin(self.alloc, self.cache.checked, call, &mut self.cache)?;
        self.runs.push(run)?;
        Ok(())
    }

    /// The run at that place makes so many turns, or fewer where it ends or reaches its limit.
    fn go(&mut self, place: usize, count: u32) -> Result<(), NoMemory>
        requires begun { place < length self.old.runs.items }
        requires orderly { Orderly self.old }
        ensures made { OnOk result (world_of self.new ≡ steps self.old.cache.checked.now place count (world_of self.old)) }
        ensures begun { OnOk result (length self.new.runs.items ≡ length self.old.runs.items) }
        ensures gone { OnOk result (HasGone place count self.old.runs.items self.new.runs.items) }
        ensures checked { OnOk result (self.new.cache.checked.now ≡ self.old.cache.checked.now) }
        ensures words { OnOk result (self.new.words ≡ self.old.words) }
        ensures orderly { OnOk result (Orderly self.new) }
    {
        let run = &mut self.runs[place];
        run.go(count, &mut self.cache)?;
        Ok(())
    }

    /// A version of the function is made by the passes. It is published where its words fit.
    fn compile(&mut self, function: FunId, passes: &Passes) -> Result<(), NoMemory>
        requires inside { function.0 < length self.old.cache.checked.now.functions }
        requires orderly { Orderly self.old }
        ensures made { OnOk result (Happens self.old.cache.checked.now self.old.words (Event.Compile function passes.now) (world_of self.old) (world_of self.new)) }
        ensures runs { OnOk result (self.new.runs ≡ self.old.runs) }
        ensures checked { OnOk result (self.new.cache.checked.now ≡ self.old.cache.checked.now) }
        ensures words { OnOk result (self.new.words ≡ self.old.words) }
        ensures orderly { OnOk result (Orderly self.new) }
    {
        let (version, skips) = pipeline(self.alloc, self.cache.checked, function, passes)?;
        let answer = self.publish(version)?;
        self.compiled.push(answer)?;
        self.skips.push(skips)?;
        Ok(())
    }

    /// Claims the first free words for a version, and makes it its function's current one. Nothing changes where it is
    /// too large or the table has fewer words.
    fn publish(&mut self, version: Version<'p>) -> Result<Compiled, NoMemory>
        requires program { version.program ≡ self.old.cache.checked.now }
        requires context { version.context ≡ [] }
        requires inside { version.code.function.0 < length self.old.cache.checked.now.functions }
        requires orderly { Orderly self.old }
        ensures answer { IfOk result (λ answer. answer ≡ claimed self.old.words self.old.next (words_in version.entry.code)) }
        ensures made { IfOk result (λ answer. world_of self.new ≡ published version.entry.code answer (world_of self.old)) }
        ensures runs { OnOk result (self.new.runs ≡ self.old.runs) }
        ensures checked { OnOk result (self.new.cache.checked.now ≡ self.old.cache.checked.now) }
        ensures words { OnOk result (self.new.words ≡ self.old.words) }
        ensures orderly { OnOk result (Orderly self.new) }
    {
        let need = match word_count(&version) {
            WordCount::TooLarge { len } => return Ok(Compiled::TooLarge { len }),
            WordCount::Few(need) => need,
        };
        let next = self.next as u64;
        if next + need as u64 > self.words as u64 {
            return Ok(Compiled::Full { next, need });
        }
        later_codes_keep_a_run();
        later_codes_keep_a_report();
        self.cache.publish(next, version)?;
        self.next += need;
        Ok(Compiled::Published { offset: next })
    }

    /// Each run goes on to its end, in order.
    pub fn finish(&mut self) -> Result<(), NoMemory>
        requires orderly { Orderly self.old }
        ensures made { OnOk result (world_of self.new ≡ finished self.old.cache.checked.now (length self.old.runs.items) (world_of self.old)) }
        ensures checked { OnOk result (self.new.cache.checked.now ≡ self.old.cache.checked.now) }
        ensures words { OnOk result (self.new.words ≡ self.old.words) }
        ensures through { OnOk result (All IsThrough self.new.runs.items) }
        ensures orderly { OnOk result (Orderly self.new) }
    {
        for place in 0..self.runs.len() {
            let limit = self.runs[place].call.limit;
            self.go(place, limit)?;
        }
        Ok(())
    }

    /// What is told of a play, each of whose runs has ended or has reached its limit.
    pub fn into_played(self) -> Result<Played, NoMemory>
        requires through { All IsThrough self.runs.items }
        requires orderly { Orderly self }
        ensures reports { IfOk result (λ played. AllZip (IsToldOf self.entry.cache.checked.now (codes_in (made_in self.entry.cache))) self.entry.runs.items played.reports) }
        ensures compiled { IfOk result (λ played. played.compiled ≡ self.entry.compiled) }
        ensures skips { IfOk result (λ played. played.skips ≡ self.entry.skips) }
    {
        let World {
            alloc,
            runs,
            compiled,
            skips,
            ..
        } = self;
        let mut reports = Reports::new(alloc);
        for run in runs {
            reports.push(run.report())?;
        }
        Ok(Played {
            reports,
            compiled,
            skips,
        })
    }
}

// How many words the version's code has.
#[tactic(auto, unfolding(crate::specs::Worlds::words_in))]
fn word_count(version: &Version<'_>) -> WordCount
    ensures { HasWords (words_in version.now.code) result }
{
    let len = cj_spelling::word_count(version.code());
    if len <= MAX_WORDS {
        WordCount::Few(len as u32)
    } else {
        WordCount::TooLarge { len }
    }
}
