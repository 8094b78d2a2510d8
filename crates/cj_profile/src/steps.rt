//! Single steps on a word.

ghost use Rattle.std.specs.Prelude.{◌≡◌, ◌∷◌, [], ◌≤◌};
ghost use Rattle.cj_profile.specs.Words.{IsWordOf};
ghost use Rattle.cj_profile.specs.Reads.{load, store, add_one, raise};
ghost use Rattle.cj_profile.specs.Steps.{IsFree, IsLow, exchanged};
ghost use Rattle.cj_profile.specs.Seats.{program_of, Belongs, IsSame, Adds};

use crate::layout::Word;
use crate::plays::{Add, Exchange, Load, Raise, Store};
use crate::profile::{Profile, ProfileSeat};

impl Profile {
    /// The word's value. That of an asked level is at most 3.
    pub(crate) fn load(&self, seat: &mut ProfileSeat, word: Word) -> u64
        requires own { Belongs self.now seat.old }
        requires word { IsWordOf (program_of self.now) word }
        ensures own { Belongs self.now seat.new }
        ensures same { IsSame seat.old seat.new }
        ensures reads { Adds (load word result ∷ []) seat.old seat.new }
        ensures low { IsLow word result }
    {
        self.table.shared.load::<Load>(&mut seat.seat, word.index())
    }

    /// Writes a value into a word that keeps no asked level.
    pub(crate) fn store(&self, seat: &mut ProfileSeat, word: Word, value: u64)
        requires own { Belongs self.now seat.old }
        requires word { IsWordOf (program_of self.now) word }
        requires free { IsFree word }
        ensures own { Belongs self.now seat.new }
        ensures same { IsSame seat.old seat.new }
        ensures reads { Adds (store word value ∷ []) seat.old seat.new }
    {
        self.table
            .shared
            .store::<Store>(&mut seat.seat, word.index(), value);
    }

    /// Adds 1 to a word that keeps no asked level, and gives the value before.
    pub(crate) fn add_one(&self, seat: &mut ProfileSeat, word: Word) -> u64
        requires own { Belongs self.now seat.old }
        requires word { IsWordOf (program_of self.now) word }
        requires free { IsFree word }
        ensures own { Belongs self.now seat.new }
        ensures same { IsSame seat.old seat.new }
        ensures reads { Adds (add_one word result ∷ []) seat.old seat.new }
    {
        self.table
            .shared
            .fetch_add::<Add>(&mut seat.seat, word.index(), 1)
    }

    /// Raises a word to at least a level, and gives the value before.
    pub(crate) fn raise(&self, seat: &mut ProfileSeat, word: Word, level: u8) -> u64
        requires own { Belongs self.now seat.old }
        requires word { IsWordOf (program_of self.now) word }
        requires level { level ≤ 3 }
        ensures own { Belongs self.now seat.new }
        ensures same { IsSame seat.old seat.new }
        ensures reads { Adds (raise word result level ∷ []) seat.old seat.new }
    {
        self.table
            .shared
            .fetch_max::<Raise>(&mut seat.seat, word.index(), level as u64)
    }

    /// Writes a value into a word that keeps no asked level, where it has the expected one, and gives the value before.
    pub(crate) fn exchange(
        &self,
        seat: &mut ProfileSeat,
        word: Word,
        expected: u64,
        value: u64,
    ) -> u64
        requires own { Belongs self.now seat.old }
        requires word { IsWordOf (program_of self.now) word }
        requires free { IsFree word }
        ensures own { Belongs self.now seat.new }
        ensures same { IsSame seat.old seat.new }
        ensures reads { Adds (exchanged word expected value result ∷ []) seat.old seat.new }
    {
        self.table
            .shared
            .compare_exchange::<Exchange>(&mut seat.seat, word.index(), expected, value)
    }
}
