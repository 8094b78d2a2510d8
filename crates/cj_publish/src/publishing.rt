//! Claiming words, making them current, and reading what is current.

ghost use Rattle.std.specs.Prelude.{◌≡◌, ◌+◌, ◌<◌, ◌≤◌, true, None, Some, [], length, IfOk};
ghost use Rattle.cj_publish.specs.Cells.{IsCell};
ghost use Rattle.cj_publish.specs.Rule.{IsVersion};
ghost use Rattle.cj_publish.specs.Reliable.{IsReliable};
ghost use Rattle.cj_publish.specs.Seated.{IsWithin};
ghost use Rattle.cj_publish.specs.Seats.{view_of, key_of, Belongs, IsSame};
ghost use Rattle.cj_publish.specs.Seen.{SeenAt, ReadWhole};
ghost use Rattle.cj_publish.specs.Learns.{Learns};
ghost use Rattle.cj_publish.specs.Calls.{Claims, IsEmptyClaim, Fills, IsReady, IsOffset, Publishes, Grows};

use crate::plays::{Fetch, Front, Near, Publish, Take};
use crate::seats::{CodeSeat, CodeTable, Held};
use crate::view::{Cell, View};
use atomic_table::Seat;
use cj_ir::NoMemory;
use std::alloc::Global;

/// What a claim found.
#[derive(Clone, Copy, Debug, PartialEq, Eq)]
pub enum Claim {
    /// The words from there on are claimed.
    Claimed { offset: u64 },
    /// The first unclaimed word was `next`, so there is no room for `need` words.
    Full { next: u64, need: u32 },
}

/// What became of a claim.
#[derive(Clone, Copy, Debug, PartialEq, Eq)]
pub enum Published {
    /// It is the newest region.
    Published { offset: u64 },
    /// A newer region was found.
    Older { mine: u64, found: u64 },
}

impl CodeTable {
    /// Claims words for a region.
    pub fn claim(&self, seat: &mut CodeSeat, len: u32) -> Claim
        requires own { Belongs self.now seat.old }
        requires free { (view_of seat.old).claim ≡ None }
        requires len { (1 ≤ len) × (len ≤ 65536) }
        ensures own { Belongs self.now seat.new }
        ensures same { IsSame seat.old seat.new }
        ensures learns { Learns (view_of seat.old) (view_of seat.new) }
        ensures claims { Claims (view_of seat.old) len result (view_of seat.new) }
    {
        let need = u64::from(len);
        let mut next = self.table.shared.load::<Front>(&mut seat.seat, 0);
        while next + need <= self.size {
            let found = self
                .table
                .shared
                .compare_exchange::<Take>(&mut seat.seat, 0, next, next + need);
            if found == next {
                seat.held = Some(Held {
                    offset: next,
                    len: need,
                    written: 0,
                });
                return Claim::Claimed { offset: next };
            }
            next = found;
        }
        Claim::Full { next, need: len }
    }

    /// Writes all words of the claim, of which none is written.
    pub fn write_all(&self, seat: &mut CodeSeat, words: &[u64])
        requires own { Belongs self.now seat.old }
        requires claim { IsEmptyClaim (view_of seat.old) (length words.now) }
        ensures own { Belongs self.now seat.new }
        ensures same { IsSame seat.old seat.new }
        ensures fills { Fills (view_of seat.old) words.now (view_of seat.new) }
    {
        for i in 0..words.len() {
            self.write(seat, words[i]);
        }
    }

    /// Makes the claim the newest region of a slot, unless a newer one is there.
    pub fn publish_at(&self, seat: &mut CodeSeat, cell: Cell) -> Published
        requires own { Belongs self.now seat.old }
        requires cell { IsCell (key_of self.now) cell }
        requires ready { IsReady (view_of seat.old) cell }
        ensures own { Belongs self.now seat.new }
        ensures same { IsSame seat.old seat.new }
        ensures learns { Learns (view_of seat.old) (view_of seat.new) }
        ensures publishes { Publishes (view_of seat.old) cell result (view_of seat.new) }
    {
        let Some(held) = seat.held.take() else {
            unreachable!()
        };
        let mine = held.offset;
        self.replace(&mut seat.seat, cell, mine)
    }

    // Puts the claim's offset into a slot's word, unless a greater one is there.
    fn replace(&self, seat: &mut Seat<(), View>, cell: Cell, mine: u64) -> Published
        requires own { (seat.old.table_id ≡ self.now.table.shared.table_id) × (seat.old.me.0.live ≡ true) × (seat.old.me.0.key ≡ key_of self.now) }
        requires cell { IsCell (key_of self.now) cell }
        requires ready { IsReady seat.old.me.0 cell }
        requires mine { IsOffset seat.old.me.0 mine }
        requires within { IsWithin seat.old.me.0 }
        ensures same { (seat.new.table_id ≡ seat.old.table_id) × (seat.new.me.1 ≡ seat.old.me.1) }
        ensures publishes { Publishes seat.old.me.0 cell result seat.new.me.0 }
        ensures reliable { IsReliable seat.new.me.0 }
    {
        let at = self.word_of(cell);
        let mut seen = self.table.shared.load::<Near>(seat, at);
        while seen < mine {
            let found = self
                .table
                .shared
                .compare_exchange::<Publish>(seat, at, seen, mine);
            if found == seen {
                return Published::Published { offset: mine };
            }
            seen = found;
        }
        Published::Older { mine, found: seen }
    }

    /// The words of a region that the seat has seen, as they were written before it was published.
    pub fn fetch_words(
        &self,
        alloc: Global,
        seat: &mut CodeSeat,
        cell: Cell,
        offset: u64,
    ) -> Result<Vec<u64>, NoMemory>
        requires own { Belongs self.now seat.old }
        requires seen { SeenAt (view_of seat.old) cell offset }
        ensures own { Belongs self.now seat.new }
        ensures same { IsSame seat.old seat.new }
        ensures grows { Grows (view_of seat.old) (view_of seat.new) }
        ensures learns { Learns (view_of seat.old) (view_of seat.new) }
        ensures words { IfOk result (λ ws. ReadWhole (view_of seat.new) cell offset ws.items × IsVersion (key_of self.now) cell ws.items) }
    {
        let len = self
            .table
            .shared
            .load::<Fetch>(&mut seat.seat, offset as usize);
        let mut words = Vec::with_capacity(alloc, len as usize)?;
        words.push_reserved(len);
        for i in 1..len {
            let word = self
                .table
                .shared
                .load::<Fetch>(&mut seat.seat, (offset + i) as usize);
            words.push_reserved(word);
        }
        Ok(words)
    }
}
