//! A session: two seats, and the versions that it has read.

ghost use Rattle.std.specs.Prelude.{◌≡◌, ◌≤◌, None, Some, IfOk, OnErr, length};
ghost use Rattle.cj_ir.specs.WellFormed.{Takes};
ghost use Rattle.cj_base.specs.Run.{begun};
ghost use Rattle.cj_engine.specs.Engines.{begun_with};
ghost use Rattle.cj_machine.specs.Memories.{base_memory, version_memory};
ghost use Rattle.cj_profile.specs.Seats as counts;
ghost use Rattle.cj_publish.specs.Seats.{view_of, key_of, program_of, Belongs};
ghost use Rattle.cj_parts.specs.Known.{known_codes};
ghost use Rattle.cj_parts.specs.Runs.{Ran, RanOut};
ghost use Rattle.cj_session.specs.Versions.{AreKnown};
ghost use Rattle.cj_session.specs.Sessions.{IsReady, Stays, view_in, reads_in};

use crate::versions::Versions;
use cj_calls::Report;
use cj_engine as engine;
use cj_ir::{Checked, NoMemory, ScriptCall, Values};
use cj_profile::{Profile, ProfileSeat};
use cj_publish::{CodeSeat, CodeTable};
use std::alloc::Global;

/// Two tables with a seat at each, and the versions that were read.
#[derive(Drop)]
pub struct Session<'a> {
    pub(crate) alloc: Global,
    pub(crate) checked: &'a Checked,
    pub(crate) table: &'a CodeTable,
    pub(crate) code_seat: CodeSeat,
    pub(crate) profile: &'a Profile,
    pub(crate) profile_seat: ProfileSeat,
    pub(crate) versions: Versions<'a>,
}

impl<'a> Session<'a> {
    /// A session of a program at tables that were made for it, with versions that its seat has read whole: none, or those
    /// of an earlier session whose seat this was. It takes no memory.
    pub fn new(
        alloc: Global,
        checked: &'a Checked,
        table: &'a CodeTable,
        code_seat: CodeSeat,
        profile: &'a Profile,
        profile_seat: ProfileSeat,
        versions: Versions<'a>,
    ) -> Session<'a>
        requires code { Belongs table.now code_seat }
        requires program { program_of table.now ≡ checked.now }
        requires one_slot { (key_of table.now).slots ≡ 1 }
        requires free { (view_of code_seat).claim ≡ None }
        requires profile { counts.Belongs profile.now profile_seat }
        requires counted { counts.program_of profile.now ≡ checked.now }
        requires known { AreKnown checked.now (view_of code_seat) versions }
        ensures ready { IsReady result }
        ensures tables { (result.checked.now ≡ checked.now) × (result.table.now ≡ table.now) × (result.profile.now ≡ profile.now) }
        ensures seats { (result.code_seat ≡ code_seat) × (result.profile_seat ≡ profile_seat) }
        ensures versions { result.versions ≡ versions.entry }
    {
        Session {
            alloc,
            checked,
            table,
            code_seat,
            profile,
            profile_seat,
            versions,
        }
    }

    /// Runs a call. It begins with a memory of zeros. After want of memory the session may be used again: its seat has looked up
    /// and counted what a beginning of the run asks for.
    pub fn run(&mut self, call: &ScriptCall) -> Result<Report, NoMemory>
        requires ready { IsReady self.old }
        requires takes { Takes self.old.checked.now.functions call.now.function (length call.now.args) }
        requires limit { (1 ≤ call.now.limit) × (call.now.limit ≤ 1000000) }
        ensures ready { IsReady self.new }
        ensures stays { Stays self.old self.new }
        ensures ran { IfOk result (λ report. Ran self.old.checked.now (begun call.now) report (view_in self.old) (view_in self.new) (reads_in self.old) (reads_in self.new)) }
        ensures ran_out { OnErr result (RanOut self.old.checked.now (begun call.now) (view_in self.old) (view_in self.new) (reads_in self.old) (reads_in self.new)) }
    {
        engine::run(self.alloc, self.checked, call, self)
    }

    /// Runs a call that begins with this memory, however many cells the call asks for. The memory that it leaves is that of
    /// its versioned run, and of the base run after the report's base turns.
    pub fn run_from(&mut self, call: &ScriptCall, memory: Values) -> Result<engine::Ran, NoMemory>
        requires ready { IsReady self.old }
        requires takes { Takes self.old.checked.now.functions call.now.function (length call.now.args) }
        requires limit { (1 ≤ call.now.limit) × (call.now.limit ≤ 1000000) }
        ensures ready { IsReady self.new }
        ensures stays { Stays self.old self.new }
        ensures ran { IfOk result (λ made. Ran self.old.checked.now (begun_with call.now memory) made.report (view_in self.old) (view_in self.new) (reads_in self.old) (reads_in self.new)) }
        ensures memory { IfOk result (λ made. version_memory self.old.checked.now (known_codes (view_in self.new)) made.report.looks (begun_with call.now memory) ≡ Some made.memory) }
        ensures agrees { IfOk result (λ made. made.memory ≡ base_memory self.old.checked.now (begun_with call.now memory) made.report.base_turns) }
        ensures ran_out { OnErr result (RanOut self.old.checked.now (begun_with call.now memory) (view_in self.old) (view_in self.new) (reads_in self.old) (reads_in self.new)) }
    {
        engine::run_from(self.alloc, self.checked, call, memory, self)
    }

    /// The seats, and the versions, which the code seat has read whole. It takes no memory.
    pub fn into_parts(self) -> (CodeSeat, ProfileSeat, Versions<'a>)
        requires ready { IsReady self }
        ensures seats { (result.0 ≡ self.entry.code_seat) × (result.1 ≡ self.entry.profile_seat) }
        ensures versions { result.2 ≡ self.entry.versions }
        ensures known { AreKnown self.entry.checked.now (view_of result.0) result.2 }
    {
        let Session {
            alloc: _,
            checked: _,
            table: _,
            code_seat,
            profile: _,
            profile_seat,
            versions,
        } = self;
        (code_seat, profile_seat, versions)
    }

    /// The seats. It takes no memory.
    pub fn into_seats(self) -> (CodeSeat, ProfileSeat)
        requires ready { IsReady self }
        ensures seats { (result.0 ≡ self.entry.code_seat) × (result.1 ≡ self.entry.profile_seat) }
    {
        let (code_seat, profile_seat, _) = self.into_parts();
        (code_seat, profile_seat)
    }
}
