//! A worker's turns.

ghost use Rattle.std.specs.Prelude.{◌≡◌, ◌≤◌, ◌++◌, true, false, length, IfOk, OnOk, OnErr};
ghost use Rattle.cj_notes.specs.Causes.{kept};
ghost use Rattle.cj_notes.specs.Waiting.{WorksOn, TurnsDone, TurnsLost};
ghost use Rattle.cj_worker.specs.Workers.{program_in, view_in, reads_in, IsReady, Stays, TurnMade, TurnLost};

use crate::worker::Worker;
use cj_io::Gate;
use cj_ir::NoMemory;
use cj_notes::{WorkNote, Works};
use std::sync::Wait;

impl Worker<'_> {
    /// Works until that many callers have finished. Before each job it reads how many have, and it ends where this read
    /// found them all. Where there was no job it calls `gate.idle`. It keeps the notes that have a job, in order. Where
    /// there is no memory the notes are lost.
    pub fn work_until_stopped<R: Wait, G: Gate>(
        &mut self,
        rt: &R,
        callers: u64,
        gate: &G,
    ) -> Result<Works, NoMemory>
        requires ready { IsReady self.old }
        ensures ready { IsReady self.new }
        ensures stays { Stays self.old self.new }
        ensures works_on { WorksOn (view_in self.old) (view_in self.new) }
        ensures done { IfOk result (λ work. TurnsDone (program_in self.old) callers work (view_in self.old) (view_in self.new) (reads_in self.old) (reads_in self.new)) }
        ensures lost { OnErr result (TurnsLost (program_in self.old) callers (view_in self.old) (view_in self.new) (reads_in self.old) (reads_in self.new)) }
    {
        let mut work = Works::new(self.alloc);
        for _ in rt.forever() {
            if self.turn(callers, &mut work, gate)? {
                return Ok(work);
            }
        }
        unreachable!()
    }

    // Whether all callers have finished. Where not, one job is done.
    fn turn<G: Gate>(&mut self, callers: u64, work: &mut Works, gate: &G) -> Result<bool, NoMemory>
        requires ready { IsReady self.old }
        ensures ready { IsReady self.new }
        ensures stays { Stays self.old self.new }
        ensures works_on { WorksOn (view_in self.old) (view_in self.new) }
        ensures made { IfOk result (λ all. TurnMade callers all work.old work.new self.old self.new) }
        ensures lost { OnErr result (TurnLost callers work.old self.old self.new) }
    {
        if self.profile.finished(&mut self.profile_seat) >= callers {
            return Ok(true);
        }
        let note = self.work_one()?;
        keep(work, note, gate)?;
        Ok(false)
    }
}

// Keeps a note that has a job.
#[tactic(auto, unfolding(cj_notes::specs::Causes::kept))]
fn keep<G: Gate>(work: &mut Works, note: WorkNote, gate: &G) -> Result<(), NoMemory>
    ensures kept { OnOk result (work.new ≡ work.old ++ kept note) }
    ensures lost { OnErr result (1 ≤ length (work.old ++ kept note)) }
{
    match note {
        WorkNote::NoneAsked => {
            gate.idle();
            Ok(())
        }
        WorkNote::Taken { .. } => Ok(()),
        WorkNote::Published { .. }
        | WorkNote::Older { .. }
        | WorkNote::Full { .. }
        | WorkNote::TooLarge { .. } => work.push(note),
    }
}
