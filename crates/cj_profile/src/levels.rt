//! Asking for levels, and marking them as taken.

ghost use Rattle.std.specs.Prelude.{◌≡◌, ◌^◌, ◌<◌, ◌≤◌, [], ◌∷◌, length, ℕ};
ghost use Rattle.cj_profile.specs.declared.layout.Word.TheVariants.{Asked, Taken};
ghost use Rattle.cj_profile.specs.Reads.{raise};
ghost use Rattle.cj_profile.specs.Seats.{program_of, Belongs, IsSame, Adds};

use crate::layout::Word;
use crate::profile::{Profile, ProfileSeat};
use cj_ir::FunId;

impl Profile {
    /// Asks that a function be compiled at a level from 1 to 3: the asked level rises to at least that.
    pub fn ask(&self, seat: &mut ProfileSeat, f: FunId, level: u8)
        requires own { Belongs self.now seat.old }
        requires function { f.0 < length (program_of self.now).functions }
        requires level { (1 ≤ level) × (level ≤ 3) }
        ensures own { Belongs self.now seat.new }
        ensures same { IsSame seat.old seat.new }
        ensures reads { (found : ℕ) × (found < 2 ^ 64) × Adds (raise (Asked f) found level ∷ []) seat.old seat.new }
    {
        self.raise(seat, Word::Asked(f), level);
    }

    /// Marks a level from 1 to 3 as taken: the taken level rises to at least that.
    pub fn mark_taken(&self, seat: &mut ProfileSeat, f: FunId, level: u8)
        requires own { Belongs self.now seat.old }
        requires function { f.0 < length (program_of self.now).functions }
        requires level { (1 ≤ level) × (level ≤ 3) }
        ensures own { Belongs self.now seat.new }
        ensures same { IsSame seat.old seat.new }
        ensures reads { (found : ℕ) × (found < 2 ^ 64) × Adds (raise (Taken f) found level ∷ []) seat.old seat.new }
    {
        self.raise(seat, Word::Taken(f), level);
    }
}
