//! Putting a version's words into the table, which takes no memory.

ghost use Rattle.std.specs.Prelude.{◌≡◌, None, Some};
ghost use Rattle.cj_draft.specs.declared.code.Code.{Code};
ghost use Rattle.cj_ir.specs.declared.language.Program.{Program};
ghost use Rattle.cj_spelling.specs.Spells.{Spells};
ghost use Rattle.cj_publish.specs.Cells.{IsCell};
ghost use Rattle.cj_publish.specs.Rule.{IsVersion};
ghost use Rattle.cj_publish.specs.Fetched.{main_of};
ghost use Rattle.cj_publish.specs.Seats.{view_of, key_of, program_of, Belongs, IsSame};
ghost use Rattle.cj_notes.specs.Jobs.{job_of, IsMadeFor};
ghost use Rattle.cj_notes.specs.Works.{Worked};
ghost use Rattle.cj_worker.specs.Tasks.{job_in, IsMade, GivesNote};

use crate::tasks::{Made, Task};
use cj_draft::Skips;
use cj_notes::WorkNote;
use cj_publish::{Claim, CodeSeat, CodeTable, Published};

/// The note of a job for which that was made: its words are put into the table where they are not too many.
#[tactic(auto, unfolding(cj_notes::specs::Jobs::job_of))]
pub(crate) fn finish(table: &CodeTable, seat: &mut CodeSeat, task: Task, made: Made) -> WorkNote
    requires own { Belongs table.now seat.old }
    requires free { (view_of seat.old).claim ≡ None }
    requires cell { IsCell (key_of table.now) (main_of task.f) }
    requires made { IsMade (program_of table.now) (job_in task) made }
    ensures own { Belongs table.now seat.new }
    ensures same { IsSame seat.old seat.new }
    ensures job { job_of result ≡ Some (job_in task) }
    ensures worked { GivesNote (program_of table.now) result (view_of seat.old) (view_of seat.new) }
{
    match made {
        Made::Spelled { words, skipped } => put(table, seat, task, skipped, words.items()),
        Made::TooLarge { len } => task.too_large(len),
    }
}

/// Claims room for the words of a version, writes them, and makes them current.
#[tactic(auto, unfolding(cj_notes::specs::Jobs::job_of))]
fn put(
    table: &CodeTable,
    seat: &mut CodeSeat,
    task: Task,
    skipped: Skips,
    words: &[u64],
) -> WorkNote
    requires own { Belongs table.now seat.old }
    requires free { (view_of seat.old).claim ≡ None }
    requires cell { IsCell (key_of table.now) (main_of task.f) }
    requires version { IsVersion (key_of table.now) (main_of task.f) words.now }
    ensures own { Belongs table.now seat.new }
    ensures same { IsSame seat.old seat.new }
    ensures job { job_of result ≡ Some (job_in task) }
    ensures worked { (P : Program) (code : Code) → IsMadeFor P (job_in task) code skipped → Spells words.now code →
        Worked P (record { note = result; code = Some code }) (view_of seat.old) (view_of seat.new) }
{
    match table.claim(seat, words.len() as u32) {
        Claim::Full { next, need } => task.full(next, need),
        Claim::Claimed { offset: _ } => {
            table.write_all(seat, words);
            match table.publish(seat, task.f) {
                Published::Published { offset } => task.published(offset, skipped),
                Published::Older { mine, found } => task.older(mine, found),
            }
        }
    }
}
