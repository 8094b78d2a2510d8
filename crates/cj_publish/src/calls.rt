//! The calls for tables with one slot a function, and versions fetched.

ghost use Rattle.std.specs.Prelude.{◌≡◌, ◌+◌, ◌<◌, ◌≤◌, true, false, Some, None, [], length, IfOk};
ghost use Rattle.cj_draft.specs.WellNamed.{IsContextOf};
ghost use Rattle.cj_draft.specs.Contexts.{context_in};
ghost use Rattle.cj_draft.specs.Sound.{Sound};
ghost use Rattle.cj_draft.specs.Bodies.{HasNoAnchors};
ghost use Rattle.cj_publish.specs.declared.view.View.{View};
ghost use Rattle.cj_publish.specs.Cells.{IsCell};
ghost use Rattle.cj_publish.specs.Views.{fresh, with_look};
ghost use Rattle.cj_publish.specs.Seen.{SeenAt, SeesNoMore, NotOlder};
ghost use Rattle.cj_publish.specs.Plays.{Sees};
ghost use Rattle.cj_publish.specs.Seats.{view_of, key_of, program_of, Belongs, IsSole, IsSame};
ghost use Rattle.cj_publish.specs.Calls.{IsReady, Publishes, Grows};
ghost use Rattle.cj_publish.specs.Learns.{Learns};
ghost use Rattle.cj_publish.specs.Fetched.{main_of, HasVersion};

use crate::contexts::slot_context;
use crate::publishing::Published;
use crate::seats::{CodeSeat, CodeTable};
use crate::view::Cell;
use cj_codec::decode;
use cj_draft::{Code, Version};
use cj_ir::{Checked, FunId, NoMemory};
use std::alloc::Global;

impl CodeTable {
    /// A table of `size` words, with one slot a function, and its first seat. No function has a version.
    pub fn make(
        alloc: Global,
        checked: &Checked,
        size: u32,
    ) -> Result<(CodeTable, CodeSeat), NoMemory>
        requires size { (length checked.now.functions < size) × (size ≤ 1048576) }
        ensures key { IfOk result (λ made. (program_of made.0 ≡ checked.now) × ((key_of made.0).size ≡ size) × ((key_of made.0).slots ≡ 1)) }
        ensures sole { IfOk result (λ made. IsSole made.1) }
        ensures seat { IfOk result (λ made. Belongs made.0 made.1 × (view_of made.1 ≡ fresh (key_of made.0)) × (made.1.first ≡ true) × (made.1.splits ≡ 0)) }
    {
        CodeTable::make_slots(alloc, checked, size, 1)
    }

    /// The offset of a function's newest version, or 0, as one load finds it.
    pub fn lookup(&self, seat: &mut CodeSeat, f: FunId) -> u64
        requires own { Belongs self.now seat.old }
        requires cell { IsCell (key_of self.now) (main_of f) }
        ensures own { Belongs self.now seat.new }
        ensures same { IsSame seat.old seat.new }
        ensures not_older { NotOlder (view_of seat.old) (main_of f) result }
        ensures seen { ¬ (result ≡ 0) → SeenAt (view_of seat.new) (main_of f) result }
        ensures known { IsSole seat.old → ¬ (result ≡ 0) → SeenAt (view_of seat.old) (main_of f) result }
        ensures no_more { IsSole seat.old → SeesNoMore (view_of seat.old) (view_of seat.new) }
        ensures learns { Learns (view_of seat.old) (view_of seat.new) }
        ensures looked { (u : View) × Sees (view_of seat.old) (main_of f) result u × (view_of seat.new ≡ with_look u (main_of f, result)) }
    {
        self.look(
            seat,
            Cell {
                function: f,
                slot: 0,
            },
        )
    }

    /// Makes the claim a function's newest version, unless a newer one is there.
    pub fn publish(&self, seat: &mut CodeSeat, f: FunId) -> Published
        requires own { Belongs self.now seat.old }
        requires cell { IsCell (key_of self.now) (main_of f) }
        requires ready { IsReady (view_of seat.old) (main_of f) }
        ensures own { Belongs self.now seat.new }
        ensures same { IsSame seat.old seat.new }
        ensures learns { Learns (view_of seat.old) (view_of seat.new) }
        ensures publishes { Publishes (view_of seat.old) (main_of f) result (view_of seat.new) }
    {
        self.publish_at(
            seat,
            Cell {
                function: f,
                slot: 0,
            },
        )
    }

    /// The version whose words were written there before it was published.
    pub fn fetch<'p>(
        &self,
        alloc: Global,
        seat: &mut CodeSeat,
        checked: &'p Checked,
        f: FunId,
        offset: u64,
    ) -> Result<Version<'p>, NoMemory>
        requires own { Belongs self.now seat.old }
        requires seen { SeenAt (view_of seat.old) (main_of f) offset }
        requires program { checked.now ≡ program_of self.now }
        ensures own { Belongs self.now seat.new }
        ensures same { IsSame seat.old seat.new }
        ensures grows { Grows (view_of seat.old) (view_of seat.new) }
        ensures learns { Learns (view_of seat.old) (view_of seat.new) }
        ensures program { IfOk result (λ version. (version.program ≡ checked.now) × (version.context ≡ []) × (version.code.function ≡ f)) }
        ensures version { IfOk result (λ version. HasVersion (view_of seat.new) (main_of f) offset version.code) }
    {
        let cell = Cell {
            function: f,
            slot: 0,
        };
        let code = self.fetch_code(alloc, seat, cell, offset)?;
        Ok(Version::adopt(checked, code))
    }

    /// The version whose words were written there before it was published in that slot. It is entered with the arguments
    /// that the slot is for.
    pub fn fetch_at<'p>(
        &self,
        alloc: Global,
        seat: &mut CodeSeat,
        checked: &'p Checked,
        cell: Cell,
        offset: u64,
    ) -> Result<Version<'p>, NoMemory>
        requires own { Belongs self.now seat.old }
        requires seen { SeenAt (view_of seat.old) cell offset }
        requires program { checked.now ≡ program_of self.now }
        requires context { IsContextOf checked.now cell.function (context_in cell.slot) }
        ensures own { Belongs self.now seat.new }
        ensures same { IsSame seat.old seat.new }
        ensures grows { Grows (view_of seat.old) (view_of seat.new) }
        ensures learns { Learns (view_of seat.old) (view_of seat.new) }
        ensures program { IfOk result (λ version. (version.program ≡ checked.now) × (version.context ≡ context_in cell.slot) × (version.code.function ≡ cell.function)) }
        ensures version { IfOk result (λ version. HasVersion (view_of seat.new) cell offset version.code) }
    {
        let code = self.fetch_code(alloc, seat, cell, offset)?;
        let context = slot_context(alloc, cell.slot)?;
        Ok(Version::adopt_in(checked, context, code))
    }

    // The code whose words were written there before it was published.
    fn fetch_code(
        &self,
        alloc: Global,
        seat: &mut CodeSeat,
        cell: Cell,
        offset: u64,
    ) -> Result<Code, NoMemory>
        requires own { Belongs self.now seat.old }
        requires seen { SeenAt (view_of seat.old) cell offset }
        ensures own { Belongs self.now seat.new }
        ensures same { IsSame seat.old seat.new }
        ensures grows { Grows (view_of seat.old) (view_of seat.new) }
        ensures learns { Learns (view_of seat.old) (view_of seat.new) }
        ensures version { IfOk result (λ code. HasVersion (view_of seat.new) cell offset code) }
        ensures sound { IfOk result (λ code. (code.function ≡ cell.function) × Sound (program_of self.now) (context_in cell.slot) code.function code × HasNoAnchors code) }
    {
        let words = self.fetch_words(alloc, seat, cell, offset)?;
        match decode(alloc, words.as_slice())? {
            Some(code) => Ok(code),
            None => unreachable!(),
        }
    }

    /// Ends the table.
    pub fn close(self, seat: CodeSeat)
        requires { Belongs self seat }
    {}
}
