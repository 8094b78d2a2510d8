//! What a run's marks do to the profile.

ghost use Rattle.std.specs.Prelude.{◌≡◌, ◌<◌, length};
ghost use Rattle.cj_ir.specs.Program.{param_count};
ghost use Rattle.cj_machine.specs.Marks.{Entered, FailedIn};
ghost use Rattle.cj_profile.specs.Seats.{program_of, Belongs, IsSame, AddsPart};
ghost use Rattle.cj_parts.specs.Parts.{MarkPart};

use cj_ir::FunId;
use cj_profile::{Profile, ProfileSeat};

// The entry of a function with which level 1 is asked for, and the one with which level 2 is.
const CALLS_OF_LEVEL_ONE: u64 = 8;

const CALLS_OF_LEVEL_TWO: u64 = 64;

// The failure in a function with which level 3 is asked for.
const FAILURES_OF_LEVEL_THREE: u64 = 3;

/// An entry of a function is counted, and at two counts a level is asked for.
#[tactic(auto, using(crate::proofs::Marking::entered_asks_one, crate::proofs::Marking::entered_asks_two, crate::proofs::Marking::entered_asks_none))]
pub(crate) fn count_entry(profile: &Profile, seat: &mut ProfileSeat, f: FunId, args: &[i64])
    requires own { Belongs profile.now seat.old }
    requires function { f.0 < length (program_of profile.now).functions }
    requires arguments { length args.now ≡ param_count (program_of profile.now) f }
    ensures own { Belongs profile.now seat.new }
    ensures same { IsSame seat.old seat.new }
    ensures part { AddsPart (MarkPart (Entered f args.now)) seat.old seat.new }
{
    let count = profile.entered(seat, f, args);
    if count == CALLS_OF_LEVEL_ONE {
        profile.ask(seat, f, 1);
    } else if count == CALLS_OF_LEVEL_TWO {
        profile.ask(seat, f, 2);
    }
}

/// A failed Assume of a function is counted, and at one count a level is asked for.
#[tactic(auto, using(crate::proofs::Marking::failed_asks, crate::proofs::Marking::failed_asks_none))]
pub(crate) fn count_failure(profile: &Profile, seat: &mut ProfileSeat, f: FunId)
    requires own { Belongs profile.now seat.old }
    requires function { f.0 < length (program_of profile.now).functions }
    ensures own { Belongs profile.now seat.new }
    ensures same { IsSame seat.old seat.new }
    ensures part { AddsPart (MarkPart (FailedIn f)) seat.old seat.new }
{
    let count = profile.failed(seat, f);
    if count == FAILURES_OF_LEVEL_THREE {
        profile.ask(seat, f, 3);
    }
}
