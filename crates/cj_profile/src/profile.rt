//! The profile, and the seats at it.

ghost use Rattle.std.specs.Prelude.{◌≡◌, ◌+◌, ◌<◌, ◌≤◌, true, false, [], ◌∷◌, ◌++◌, length, map, All, IfOk};
ghost use Rattle.cj_ir.specs.WellFormed.{IsFunctionFine};
ghost use Rattle.cj_profile.specs.Words.{word_count};
ghost use Rattle.cj_profile.specs.Limits.{IsLimited};
ghost use Rattle.cj_profile.specs.Shapes.{shape_of};
ghost use Rattle.cj_profile.specs.Rule.{IsCounted};
ghost use Rattle.cj_ir.specs.declared.limits.TheConstants.{MAX_FUNCTIONS, MAX_LABELS};

use crate::layout::FUNCTION_WORDS;
use crate::plays::{Levels, Seating};
use crate::view::View;
use atomic_table::{Seat, Table};
use cj_ir::{Checked, Function, NoMemory, Sequence};
use std::alloc::Global;

/// How many parameters and labels a function has.
#[derive(Clone, Copy, Debug, PartialEq, Eq)]
pub struct Shape {
    pub params: u32,
    pub labels: u32,
}

/// A program's profile: words that threads share, each changed in single steps. Counts wrap modulo 2^64, and nothing is
/// said of them, so a profile may be false in every way. Asked levels are always 0 to 3.
#[derive(Drop)]
pub struct Profile {
    pub(crate) table: Table<(), View, Checked, Levels, Global>,
    pub(crate) shapes: Sequence<Shape>,
    ghost sized: { table.shared.table_id.words ≡ word_count table.shared.key },
    ghost shaped: { shapes ≡ map shape_of table.shared.key.functions },
    ghost few: { length table.shared.key.functions ≤ MAX_FUNCTIONS },
    ghost limited: { IsLimited table.shared.key },
}

/// A token of one thread, with which it makes steps on a profile. It keeps whether it is the one that came with the
/// profile, and how many seats were split off it; and, in proofs alone, the steps that it made.
#[derive(Drop)]
pub struct ProfileSeat {
    pub(crate) seat: Seat<(), View>,
    pub(crate) first: bool,
    pub(crate) splits: u32,
    ghost bare: { seat.me.1 ≡ [] },
    ghost counted: { IsCounted seat.me.0 first splits },
}

impl Profile {
    ghost use Rattle.cj_profile.specs.Seats.{program_of, reads_of, joined_of, Belongs, IsNew, IsSole};

    /// A program's profile, all words 0, with its first seat. As long as that is the only one, its steps find what they
    /// themselves have left, and 0 at first (`FromZeros`, which `Belongs` tells of it).
    pub fn make(alloc: Global, checked: &Checked) -> Result<(Profile, ProfileSeat), NoMemory>
        ensures program { IfOk result (λ made. program_of made.0 ≡ checked.now) }
        ensures seat { IfOk result (λ made. Belongs made.0 made.1 × IsNew true made.1) }
        ensures sole { IfOk result (λ made. IsSole made.1) }
    {
        let functions = checked.program().functions.items();
        let shapes = shapes_of(alloc, functions)?;
        let words = vec![in alloc; 0u64; FUNCTION_WORDS * functions.len() + 1]?;
        let (table, seat) = Table::of_words(alloc, words.as_slice(), checked)?;
        let profile = Profile { table, shapes };
        let seat = ProfileSeat {
            seat,
            first: true,
            splits: 0,
        };
        Ok((profile, seat))
    }

    /// A further seat, for another thread. It is not first.
    pub fn split(&self, seat: &mut ProfileSeat) -> ProfileSeat
        requires own { Belongs self.now seat.old }
        requires first { seat.old.first ≡ true }
        requires few { seat.old.splits < 65536 }
        ensures own { Belongs self.now seat.new × Belongs self.now result }
        ensures splits { (seat.new.first ≡ true) × (seat.new.splits ≡ seat.old.splits + 1) }
        ensures reads { (reads_of seat.new ≡ reads_of seat.old) × (joined_of seat.new ≡ joined_of seat.old) }
        ensures new { IsNew false result }
    {
        let new = self.table.shared.split_seat::<Seating>(&mut seat.seat);
        seat.splits += 1;
        ProfileSeat {
            seat: new,
            first: false,
            splits: 0,
        }
    }

    /// Takes in the steps of another seat, which ends.
    pub fn join(&self, seat: &mut ProfileSeat, other: ProfileSeat)
        requires own { Belongs self.now seat.old × Belongs self.now other }
        requires other { other.first ≡ false }
        ensures own { Belongs self.now seat.new }
        ensures splits { (seat.new.first ≡ seat.old.first) × (seat.new.splits ≡ seat.old.splits) }
        ensures reads { reads_of seat.new ≡ reads_of seat.old }
        ensures joined { joined_of seat.new ≡ joined_of seat.old ++ reads_of other ∷ joined_of other }
    {
        let ProfileSeat {
            seat: theirs,
            first: _,
            splits: _,
        } = other;
        self.table
            .shared
            .join_seat::<Seating>(&mut seat.seat, theirs);
    }
}

fn shapes_of(alloc: Global, functions: &[Function]) -> Result<Sequence<Shape>, NoMemory>
    requires { All (IsFunctionFine functions.now) functions.now }
    ensures { IfOk result (λ shapes. shapes ≡ map shape_of functions.now) }
{
    let mut shapes = Sequence::new(alloc);
    for function in functions {
        shapes.push(shape_of(function))?;
    }
    Ok(shapes)
}

fn shape_of(function: &Function) -> Shape
    requires { length function.now.code ≤ MAX_LABELS }
    ensures { result ≡ shape_of function.now }
{
    Shape {
        params: function.params,
        labels: function.code.items().len() as u32,
    }
}
