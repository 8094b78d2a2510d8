//! Single steps.

ghost use Rattle.std.specs.Prelude.{◌≡◌, ◌+◌, ◌*◌, ◌<◌, ◌≤◌, true, false, None, Some, length, IfOk};
ghost use Rattle.cj_publish.specs.declared.view.View.{View};
ghost use Rattle.cj_publish.specs.Cells.{number, IsCell};
ghost use Rattle.cj_publish.specs.Views.{fresh, shared, given, joined_view, with_look};
ghost use Rattle.cj_publish.specs.Seen.{SeenAt, SeesNoMore, NotOlder};
ghost use Rattle.cj_publish.specs.Plays.{Sees};
ghost use Rattle.cj_publish.specs.Learns.{Learns};
ghost use Rattle.cj_publish.specs.Seats.{view_of, key_of, program_of, IsSeatOf, Belongs, IsSole, IsSame, HasRoom, Writes};

use crate::plays::{Confirm, Cut, Glue, Look, Write};
use crate::seats::{CodeSeat, CodeTable};
use crate::view::{Cell, Told};
use atomic_table::Table;
use cj_ir::{Checked, NoMemory};
use std::alloc::Global;
use std::snapshot::Snapshot;

impl CodeTable {
    /// What follows the first word, for a table with that many slots a function.
    pub fn make_slots(
        alloc: Global,
        checked: &Checked,
        size: u32,
        slots: u32,
    ) -> Result<(CodeTable, CodeSeat), NoMemory>
        requires slots { (1 ≤ slots) × (slots ≤ 4) }
        requires size { (slots * length checked.now.functions < size) × (size ≤ 1048576) }
        ensures key { IfOk result (λ made. (program_of made.0 ≡ checked.now) × ((key_of made.0).size ≡ size) × ((key_of made.0).slots ≡ slots)) }
        ensures sole { IfOk result (λ made. IsSole made.1) }
        ensures seat { IfOk result (λ made. Belongs made.0 made.1 × (view_of made.1 ≡ fresh (key_of made.0)) × (made.1.first ≡ true) × (made.1.splits ≡ 0)) }
    {
        let functions = checked.program().functions.items().len();
        let mut words = vec![in alloc; 0u64; size as usize]?;
        words[0] = u64::from(slots) * functions as u64 + 1;
        let told = Told {
            program: Snapshot::of(checked),
            slots: u64::from(slots),
            size: u64::from(size),
        };
        let (table, seat) = Table::of_words(alloc, words.as_slice(), &told)?;
        let table = CodeTable {
            table,
            slots: u64::from(slots),
            size: u64::from(size),
        };
        let seat = CodeSeat {
            seat,
            first: true,
            splits: 0,
            held: None,
        };
        Ok((table, seat))
    }

    /// How many words the table has.
    pub fn size(&self) -> u64
        ensures { result ≡ (key_of self.now).size }
    {
        self.size
    }

    /// A seat that has seen what this one has.
    pub fn split(&self, seat: &mut CodeSeat) -> CodeSeat
        requires own { Belongs self.now seat.old }
        requires first { (seat.old.first ≡ true) × (seat.old.splits < 65536) }
        ensures own { Belongs self.now seat.new × Belongs self.now result }
        ensures splits { (seat.new.first ≡ true) × (seat.new.splits ≡ seat.old.splits + 1) }
        ensures kept { view_of seat.new ≡ shared (view_of seat.old) }
        ensures given { (view_of result ≡ given (view_of seat.old)) × (result.first ≡ false) × (result.splits ≡ 0) }
    {
        let new = self.table.shared.split_seat::<Cut>(&mut seat.seat);
        seat.splits += 1;
        CodeSeat {
            seat: new,
            first: false,
            splits: 0,
            held: None,
        }
    }

    /// Takes in what another seat has seen and done.
    pub fn join(&self, seat: &mut CodeSeat, other: CodeSeat)
        requires own { IsSeatOf self.now seat.old × IsSeatOf self.now other }
        requires free { ((view_of seat.old).claim ≡ None) × ((view_of other).claim ≡ None) }
        requires other { other.first ≡ false }
        ensures own { IsSeatOf self.now seat.new }
        ensures same { IsSame seat.old seat.new }
        ensures view { view_of seat.new ≡ joined_view (view_of seat.old) (view_of other) }
    {
        let CodeSeat {
            seat: theirs,
            first: _,
            splits: _,
            held: _,
        } = other;
        self.table.shared.join_seat::<Glue>(&mut seat.seat, theirs);
    }

    /// What the seat has read of one region agrees, and its lookups never fall.
    pub fn confirm(&self, seat: &mut CodeSeat)
        requires { IsSeatOf self.now seat.old }
        ensures own { Belongs self.now seat.new }
        ensures same { IsSame seat.old seat.new × (view_of seat.new ≡ view_of seat.old) }
    {
        self.table.shared.load::<Confirm>(&mut seat.seat, 0);
    }

    /// Writes the next word of the claim.
    pub fn write(&self, seat: &mut CodeSeat, word: u64)
        requires own { Belongs self.now seat.old }
        requires room { HasRoom (view_of seat.old) }
        ensures own { Belongs self.now seat.new }
        ensures same { IsSame seat.old seat.new }
        ensures writes { Writes (view_of seat.old) word (view_of seat.new) }
    {
        let Some(held) = &mut seat.held else {
            unreachable!()
        };
        let at = held.offset + held.written;
        held.written += 1;
        self.table
            .shared
            .store::<Write>(&mut seat.seat, at as usize, word);
    }

    /// The offset of a slot's newest version, or 0, as one load finds it.
    pub fn look(&self, seat: &mut CodeSeat, cell: Cell) -> u64
        requires own { Belongs self.now seat.old }
        requires cell { IsCell (key_of self.now) cell }
        ensures own { Belongs self.now seat.new }
        ensures same { IsSame seat.old seat.new }
        ensures not_older { NotOlder (view_of seat.old) cell result }
        ensures seen { ¬ (result ≡ 0) → SeenAt (view_of seat.new) cell result }
        ensures known { IsSole seat.old → ¬ (result ≡ 0) → SeenAt (view_of seat.old) cell result }
        ensures no_more { IsSole seat.old → SeesNoMore (view_of seat.old) (view_of seat.new) }
        ensures learns { Learns (view_of seat.old) (view_of seat.new) }
        ensures looked { (u : View) × Sees (view_of seat.old) cell result u × (view_of seat.new ≡ with_look u (cell, result)) }
    {
        let at = self.word_of(cell);
        self.table.shared.load::<Look>(&mut seat.seat, at)
    }

    // The place of a slot's word.
    pub(crate) fn word_of(&self, cell: Cell) -> usize
        requires { IsCell (key_of self.now) cell }
        ensures word { result ≡ number (key_of self.now) cell + 1 }
        ensures inside { result < (key_of self.now).size }
    {
        (self.slots * u64::from(cell.function.0) + u64::from(cell.slot)) as usize + 1
    }
}
