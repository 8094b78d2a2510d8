//! How many callers have finished.

ghost use Rattle.std.specs.Prelude.{◌≡◌, ◌^◌, ◌<◌, [], ◌∷◌, ℕ};
ghost use Rattle.cj_profile.specs.declared.layout.Word.TheVariants.{Finished};
ghost use Rattle.cj_profile.specs.Reads.{load, add_one};
ghost use Rattle.cj_profile.specs.Seats.{Belongs, IsSame, Adds};

use crate::layout::Word;
use crate::profile::{Profile, ProfileSeat};

impl Profile {
    /// One more caller has finished.
    pub fn finish_caller(&self, seat: &mut ProfileSeat)
        requires own { Belongs self.now seat.old }
        ensures own { Belongs self.now seat.new }
        ensures same { IsSame seat.old seat.new }
        ensures reads { (found : ℕ) × (found < 2 ^ 64) × Adds (add_one Finished found ∷ []) seat.old seat.new }
    {
        self.add_one(seat, Word::Finished);
    }

    /// How many callers have finished, as one load finds it.
    pub fn finished(&self, seat: &mut ProfileSeat) -> u64
        requires own { Belongs self.now seat.old }
        ensures own { Belongs self.now seat.new }
        ensures same { IsSame seat.old seat.new }
        ensures reads { Adds (load Finished result ∷ []) seat.old seat.new }
    {
        self.load(seat, Word::Finished)
    }
}
