//! A worker: two tables, with a seat at each.

ghost use Rattle.std.specs.Prelude.{◌≡◌, ◌<◌, ◌≤◌, None, All, length, IfOk, OnErr};
ghost use Rattle.cj_profile.specs.Reads.{Keeps};
ghost use Rattle.cj_profile.specs.Jobs.{IsAnswerOf};
ghost use Rattle.cj_profile.specs.Seats as counts;
ghost use Rattle.cj_publish.specs.Seats.{view_of, key_of, program_of, Belongs};
ghost use Rattle.cj_parts.specs.Calls.{GainsPart};
ghost use Rattle.cj_notes.specs.Works.{JobDone, WorkedOne, Warmed, WorkFailed, WarmFailed};
ghost use Rattle.cj_worker.specs.Answers.{Answered, AnswerFailed};
ghost use Rattle.cj_worker.specs.Workers.{program_in, view_in, reads_in, IsReady, Stays};

use crate::making::prepare;
use crate::putting::finish;
use cj_ir::{Checked, FunId, NoMemory};
use cj_notes::WorkNote;
use cj_profile::{JobAnswer, Profile, ProfileSeat};
use cj_publish::{CodeSeat, CodeTable};
use std::alloc::Global;

/// The tables of a program, with a seat at each.
#[derive(Drop)]
pub struct Worker<'a> {
    pub(crate) alloc: Global,
    pub(crate) checked: &'a Checked,
    pub(crate) table: &'a CodeTable,
    pub(crate) code_seat: CodeSeat,
    pub(crate) profile: &'a Profile,
    pub(crate) profile_seat: ProfileSeat,
}

impl<'a> Worker<'a> {
    /// A worker with these seats. It takes no memory.
    pub fn new(
        alloc: Global,
        checked: &'a Checked,
        table: &'a CodeTable,
        code_seat: CodeSeat,
        profile: &'a Profile,
        profile_seat: ProfileSeat,
    ) -> Worker<'a>
        requires code { Belongs table.now code_seat }
        requires program { program_of table.now ≡ checked.now }
        requires one_slot { (key_of table.now).slots ≡ 1 }
        requires free { (view_of code_seat).claim ≡ None }
        requires profile { counts.Belongs profile.now profile_seat }
        requires counted { counts.program_of profile.now ≡ checked.now }
        ensures ready { IsReady result }
        ensures tables { (result.checked.now ≡ checked.now) × (result.table.now ≡ table.now) × (result.profile.now ≡ profile.now) }
        ensures seats { (result.code_seat ≡ code_seat) × (result.profile_seat ≡ profile_seat) }
    {
        Worker {
            alloc,
            checked,
            table,
            code_seat,
            profile,
            profile_seat,
        }
    }

    /// The seats. It takes no memory.
    pub fn into_seats(self) -> (CodeSeat, ProfileSeat)
        ensures { (result.0 ≡ self.entry.code_seat) × (result.1 ≡ self.entry.profile_seat) }
    {
        let Worker {
            alloc: _,
            checked: _,
            table: _,
            code_seat,
            profile: _,
            profile_seat,
        } = self;
        (code_seat, profile_seat)
    }

    /// Takes one job and does it: reads what the profile says of the function, plans its passes, makes its version and
    /// publishes the words. All memory is taken before a word is claimed: where there is none, the job is lost.
    pub fn work_one(&mut self) -> Result<WorkNote, NoMemory>
        requires ready { IsReady self.old }
        ensures ready { IsReady self.new }
        ensures stays { Stays self.old self.new }
        ensures worked { IfOk result (λ note. WorkedOne (program_in self.old) note (view_in self.old) (view_in self.new) (reads_in self.old) (reads_in self.new)) }
        ensures failed { OnErr result (WorkFailed (program_in self.old) (view_in self.old) (view_in self.new) (reads_in self.old) (reads_in self.new)) }
    {
        let found = self.profile.take_job(&mut self.profile_seat);
        self.answer(found)
    }

    // Does the job that was taken. Where none was, nothing is done.
    fn answer(&mut self, found: JobAnswer) -> Result<WorkNote, NoMemory>
        requires ready { IsReady self.old }
        requires found { IsAnswerOf (program_in self.old) found }
        ensures ready { IsReady self.new }
        ensures stays { Stays self.old self.new }
        ensures answered { IfOk result (λ note. Answered (program_in self.old) found note (view_in self.old) (view_in self.new) (reads_in self.old) (reads_in self.new)) }
        ensures failed { OnErr result (AnswerFailed found (view_in self.old) (view_in self.new) (reads_in self.old) (reads_in self.new)) }
    {
        match found {
            JobAnswer::Job { f, level } => self.compile(f, level),
            JobAnswer::NoneAsked => Ok(WorkNote::NoneAsked),
            JobAnswer::Taken { f, found } => Ok(WorkNote::Taken { f, found }),
        }
    }

    /// Marks a function's level, from 1 to 3, as taken, and does it as a job. Where there is no memory, it stays marked.
    pub fn warm(&mut self, f: FunId, level: u8) -> Result<WorkNote, NoMemory>
        requires ready { IsReady self.old }
        requires function { f.0 < length (program_in self.old).functions }
        requires level { (1 ≤ level) × (level ≤ 3) }
        ensures ready { IsReady self.new }
        ensures stays { Stays self.old self.new }
        ensures warmed { IfOk result (λ note. Warmed (program_in self.old) (record { function = f; level = level }) note (view_in self.old) (view_in self.new) (reads_in self.old) (reads_in self.new)) }
        ensures failed { OnErr result (WarmFailed (record { function = f; level = level }) (view_in self.old) (view_in self.new) (reads_in self.old) (reads_in self.new)) }
    {
        self.profile.mark_taken(&mut self.profile_seat, f, level);
        self.compile(f, level)
    }

    // Does a job, and tells what came of it.
    fn compile(&mut self, f: FunId, level: u8) -> Result<WorkNote, NoMemory>
        requires ready { IsReady self.old }
        requires function { f.0 < length (program_in self.old).functions }
        requires level { (1 ≤ level) × (level ≤ 3) }
        ensures ready { IsReady self.new }
        ensures stays { Stays self.old self.new }
        ensures done { IfOk result (λ note. JobDone (program_in self.old) (record { function = f; level = level }) note (view_in self.old) (view_in self.new) (reads_in self.old) (reads_in self.new)) }
        ensures failed { OnErr result (view_in self.new ≡ view_in self.old) }
        ensures lost { OnErr result (GainsPart (All Keeps) (reads_in self.old) (reads_in self.new)) }
    {
        let seat = &mut self.profile_seat;
        let (task, made) = prepare(self.alloc, self.checked, self.profile, seat, f, level)?;
        Ok(finish(self.table, &mut self.code_seat, task, made))
    }
}
