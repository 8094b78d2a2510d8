//! The runs of a play, each with an engine of its own.

ghost use Rattle.std.specs.Prelude.{◌≡◌, ◌-◌, ◌++◌, min, length, None, Some, IfOk, OnOk};
ghost use Rattle.cj_ir.specs.declared.language.Program.{Program};
ghost use Rattle.cj_base.specs.Run.{begun};
ghost use Rattle.cj_machine.specs.Versions.{Codes};
ghost use Rattle.cj_machine.specs.VersionRuns.{version_report};
ghost use Rattle.cj_engine.specs.Watching.{Gains};
ghost use Rattle.cj_events.specs.Playable.{CanBegin};
ghost use Rattle.cj_world.specs.Worlds.{codes_in, begun_run, turns};
ghost use Rattle.cj_world.specs.Played.{IsReadOff};
ghost use Rattle.cj_world.specs.Caches.{made_in, IsReady, Stays};
ghost use Rattle.cj_world.specs.Running.{run_of, Fits, IsThrough, end_told, end_answered};

use crate::cache::Cache;
use cj_base::{End, Turned};
use cj_calls::Report;
use cj_engine::Engine;
use cj_ir::{Checked, NoMemory, ScriptCall};
use cj_machine::laws::limit_is_the_report;
use std::alloc::Global;

/// A run that has begun, with its end if it has ended.
#[derive(Debug, Drop)]
pub(crate) struct Run<'p> {
    pub call: &'p ScriptCall,
    engine: Engine<'p>,
    end: Option<End>,
}

impl<'p> Run<'p> {
    /// A run that begins now: its function is looked up and entered.
    pub fn begin(
        alloc: Global,
        checked: &'p Checked,
        call: &'p ScriptCall,
        cache: &mut Cache<'p>,
    ) -> Result<Run<'p>, NoMemory>
        requires fits { CanBegin checked.now.functions call.now }
        requires ready { IsReady cache.old }
        requires program { cache.old.checked.now ≡ checked.now }
        ensures made { IfOk result (λ run. run_of run ≡ begun_run checked.now (codes_in (made_in cache.old)) cache.old.current (begun call.now)) }
        ensures call { IfOk result (λ run. run.call.now ≡ call.now) }
        ensures fits { IfOk result (λ run. Fits checked.now (codes_in (made_in cache.old)) run) }
        ensures trail { IfOk result (λ run. cache.new.trail ≡ cache.old.trail ++ run.engine.looks) }
        ensures stays { Stays cache.old cache.new }
        ensures ready { IsReady cache.new }
    {
        let engine = Engine::start(alloc, checked, call, cache)?;
        Ok(Run {
            call,
            engine,
            end: None,
        })
    }

    /// So many turns, or fewer where the run ends or reaches its limit.
    pub fn go(&mut self, count: u32, cache: &mut Cache<'p>) -> Result<(), NoMemory>
        requires ready { IsReady cache.old }
        requires fits { Fits cache.old.checked.now (codes_in (made_in cache.old)) self.old }
        ensures made { OnOk result (run_of self.new ≡ turns cache.old.checked.now (codes_in (made_in cache.old)) cache.old.current count (run_of self.old)) }
        ensures through { OnOk result (self.old.call.now.limit ≡ count → IsThrough self.new) }
        ensures fits { OnOk result (Fits cache.old.checked.now (codes_in (made_in cache.old)) self.new) }
        ensures gains { OnOk result (Gains self.old.engine.looks self.new.engine.looks cache.old.trail cache.new.trail) }
        ensures call { self.new.call ≡ self.old.call }
        ensures stays { Stays cache.old cache.new }
        ensures ready { IsReady cache.new }
    {
        match self.end {
            Some(_) => Ok(()),
            None => self.advance(count, cache),
        }
    }

    // The same, of a run that has not ended.
    fn advance(&mut self, count: u32, cache: &mut Cache<'p>) -> Result<(), NoMemory>
        requires ready { IsReady cache.old }
        requires fits { Fits cache.old.checked.now (codes_in (made_in cache.old)) self.old }
        requires goes_on { self.old.end ≡ None }
        ensures made { OnOk result (run_of self.new ≡ turns cache.old.checked.now (codes_in (made_in cache.old)) cache.old.current count (run_of self.old)) }
        ensures through { OnOk result (self.old.call.now.limit ≡ count → IsThrough self.new) }
        ensures fits { OnOk result (Fits cache.old.checked.now (codes_in (made_in cache.old)) self.new) }
        ensures gains { OnOk result (Gains self.old.engine.looks self.new.engine.looks cache.old.trail cache.new.trail) }
        ensures call { self.new.call ≡ self.old.call }
        ensures stays { Stays cache.old cache.new }
        ensures ready { IsReady cache.new }
    {
        let turns = turns_left(self.call.limit, self.engine.turns(), count);
        let turned = self.engine.advance(cache, turns)?;
        self.end = end_in(turned);
        Ok(())
    }

    /// The report of a run that has ended or has reached its limit.
    pub fn report(self) -> Report
        requires { IsThrough self }
        ensures read_off { (P : Program) (codes : Codes) → Fits P codes self.entry → IsReadOff (run_of self.entry) result }
        ensures report { (P : Program) (codes : Codes) → Fits P codes self.entry → version_report P codes result.looks (begun self.entry.call.now) ≡ Some result }
    {
        let Run { engine, end, .. } = self;
        limit_is_the_report();
        engine.report(end_or_limit(end))
    }
}

// How many of so many further turns a run may make, of which some are made.
fn turns_left(limit: u32, made: u64, count: u32) -> u64
    ensures { result ≡ min count (limit - made) }
{
    (limit as u64).saturating_sub(made).min(count as u64)
}

// The end that a turn told.
#[tactic(auto, unfolding(crate::specs::Running::end_told))]
fn end_in(turned: Turned) -> Option<End>
    ensures { result ≡ end_told turned }
{
    match turned {
        Turned::Running => None,
        Turned::Ended(end) => Some(end),
    }
}

// The end of a run, which is the turn limit where no turn ended it.
#[tactic(auto, unfolding(crate::specs::Running::end_answered))]
fn end_or_limit(end: Option<End>) -> End
    ensures { result ≡ end_answered end }
{
    match end {
        Some(end) => end,
        None => End::TurnLimit,
    }
}
