//! Taking a level that was asked for.

ghost use Rattle.std.specs.Prelude.{◌≡◌, ◌<◌, [], length};
ghost use Rattle.cj_profile.specs.Jobs.{TakesLevel, TakesJob, IsAnswerOf};
ghost use Rattle.cj_profile.specs.Seats.{program_of, Belongs, IsSame, AddsPart};

use crate::layout::Word;
use crate::profile::{Profile, ProfileSeat};
use cj_ir::FunId;

/// What there is to be compiled.
#[derive(Clone, Copy, Debug, PartialEq, Eq)]
pub enum JobAnswer {
    /// A function at a level from 1 to 3 that was asked for, and which is now taken.
    Job { f: FunId, level: u8 },
    /// No function was asked for at a level above the one taken.
    NoneAsked,
    /// Another seat was first: the taken level of that function was found at `found`, not as it was read.
    Taken { f: FunId, found: u64 },
}

impl Profile {
    /// Takes the level that is asked of the first function, in their order, of which more is asked than taken. Each
    /// function's asked and then its taken level are loaded, and the first such one exchanges taken for asked.
    pub fn take_job(&self, seat: &mut ProfileSeat) -> JobAnswer
        requires own { Belongs self.now seat.old }
        ensures own { Belongs self.now seat.new }
        ensures same { IsSame seat.old seat.new }
        ensures answer { IsAnswerOf (program_of self.now) result }
        ensures reads { AddsPart (TakesJob (length (program_of self.now).functions) 0 result) seat.old seat.new }
    {
        for number in 0..self.shapes.items().len() {
            if let Some(answer) = self.take_level(seat, FunId(number as u32)) {
                return answer;
            }
        }
        JobAnswer::NoneAsked
    }

    /// Takes the level that is asked of a function. `None`: it is no higher than the one taken.
    fn take_level(&self, seat: &mut ProfileSeat, f: FunId) -> Option<JobAnswer>
        requires own { Belongs self.now seat.old }
        requires function { f.0 < length (program_of self.now).functions }
        ensures own { Belongs self.now seat.new }
        ensures same { IsSame seat.old seat.new }
        ensures reads { AddsPart (TakesLevel f result) seat.old seat.new }
    {
        let asked = self.load(seat, Word::Asked(f));
        let taken = self.load(seat, Word::Taken(f));
        if asked <= taken {
            return None;
        }
        let found = self.exchange(seat, Word::Taken(f), taken, asked);
        if found == taken {
            Some(JobAnswer::Job {
                f,
                level: asked as u8,
            })
        } else {
            Some(JobAnswer::Taken { f, found })
        }
    }
}
